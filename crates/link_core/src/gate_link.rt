//! A link in memory whose reads wait for another link.
ghost use Rattle.std.specs.Prelude.{◌≡◌, ◌<◌, ◌≤◌, ◌+◌, ◌-◌, ◌^◌, ◌⊎◌, min, length, false, true, None, IsNone, IfSome, IfOk, OnOk, OnErr};

use crate::{Link, MemoryForm, MemoryLink};
use base_core::Failed;
use std::alloc::{AllocError, Global};
use std::sync::{Arc, OnceLock};
use std::thread::yield_now;

/// How many looks at the other link a read takes before it gives up.
const MOST_TURNS: u64 = 10_000_000;

// A write that took bytes, which is what opens a gate.
#[derive(Drop)]
struct FirstWrite {
    count: usize,
    ghost some: { 0 < count },
}

/// A link in memory whose reads may be held until another link was written to, for tests of several threads.
///
/// It reports what the link inside does. A call returns `Failed` exactly when that one does, and a read that is held
/// also after 10,000,000 turns in vain: a turn is a look at the other link, after which other threads may run. A read
/// that is held passes only once a write to the other link took bytes. Whether the other link is ever written to is
/// nothing that contracts see.
#[derive(Drop)]
pub struct GateLink {
    link: MemoryLink,
    waits_for: Option<Arc<OnceLock<FirstWrite>>>,
    opens: Option<Arc<OnceLock<FirstWrite>>>,
    opened_by: usize,
    turns: u64,
}

// What looks at a gate found: how many were in vain, and how many bytes the write took that opened it, 0 if none did.
#[derive(Clone, Copy)]
struct Looked {
    turns: u64,
    count: usize,
}

// Looks at the gate until it is open, or 10,000,000 times in vain.
fn look_until_open(gate: &OnceLock<FirstWrite>) -> Looked
    ensures most { result.turns ≤ 10000000 }
    ensures in_vain { result.count ≡ 0 → result.turns ≡ 10000000 }
{
    for turns in 0..MOST_TURNS {
        if let Some(write) = gate.get() {
            return Looked {
                turns,
                count: write.count,
            };
        }
        yield_now();
    }
    Looked {
        turns: MOST_TURNS,
        count: 0,
    }
}

impl GateLink {
    ghost use Rattle.link_core.specs.Gate.{link_of, is_held, turns_of, opened_by, waits_at, opens_at};

    /// A link that waits for no other.
    pub fn plain(link: MemoryLink) -> GateLink
        ensures link { link_of result ≡ link }
        ensures free { (is_held result ≡ false) × (opens_at result ≡ None) }
        ensures start { (turns_of result ≡ 0) × (opened_by result ≡ 0) }
    {
        GateLink {
            link,
            waits_for: None,
            opens: None,
            opened_by: 0,
            turns: 0,
        }
    }

    /// Two links: reads of the first are held until a byte was written to the second.
    pub fn pair(
        alloc: Global,
        held: MemoryLink,
        other: MemoryLink,
    ) -> Result<(GateLink, GateLink), AllocError>
        ensures held { IfOk result (λ links. (link_of links.0 ≡ held) × (is_held links.0 ≡ true)) }
        ensures other { IfOk result (λ links. (link_of links.1 ≡ other) × (is_held links.1 ≡ false)) }
        ensures tied { IfOk result (λ links. (waits_at links.0 ≡ opens_at links.1) × (opens_at links.0 ≡ None)) }
        ensures turns { IfOk result (λ links. (turns_of links.0 ≡ 0) × (turns_of links.1 ≡ 0)) }
        ensures shut { IfOk result (λ links. (opened_by links.0 ≡ 0) × (opened_by links.1 ≡ 0)) }
    {
        let gate = Arc::new(alloc, OnceLock::new())?;
        let first = GateLink {
            link: held,
            waits_for: Some(gate.clone()?),
            opens: None,
            opened_by: 0,
            turns: 0,
        };
        let second = GateLink {
            link: other,
            waits_for: None,
            opens: Some(gate),
            opened_by: 0,
            turns: 0,
        };
        Ok((first, second))
    }

    /// The link inside.
    pub fn link(&self) -> &MemoryLink
        ensures { result.now ≡ link_of self.now }
    {
        &self.link
    }

    /// How many turns its reads have waited, at most 2^64 - 1.
    pub fn turns(&self) -> u64
        ensures { result ≡ turns_of self.now }
    {
        self.turns
    }
}

impl Link for GateLink {
    ghost use Rattle.link_core.specs.Link.{ReadsBytes, WritesBytes, Closes};
    ghost use Rattle.link_core.specs.Memory.{reads_of, writes_of, starved_of, scripts_of, next_call, WritesAsListed, given_next};
    ghost use Rattle.link_core.specs.Gate.{gate_state, link_of, SameGates, FailsAsListed, Passes, WaitedInVain, IsLater};

    ghost state = { gate_state };

    fn read(&mut self, into: &mut [u8]) -> Result<usize, Failed>
        ensures link { ReadsBytes (gate_state self.old) (gate_state self.new) into.new result }
        ensures failed { OnErr result (FailsAsListed self.old self.new ⊎ WaitedInVain self.old self.new) }
        ensures passed { OnOk result (Passes self.old self.new) }
        ensures gives { IfOk result (λ n. n ≡
            given_next (reads_of (link_of self.old)) (min (length into.new) (gate_state self.old).reads)) }

        ensures writes { (writes_of (link_of self.new) ≡ writes_of (link_of self.old))
            × (starved_of (link_of self.new) ≡ starved_of (link_of self.old)) }
        ensures turns { IsLater self.old self.new }
        ensures gates { SameGates self.old self.new }
    {
        if let Some(gate) = &self.waits_for {
            let looked = look_until_open(gate);
            self.turns = self.turns.saturating_add(looked.turns);
            self.opened_by = looked.count;
            if looked.count == 0 {
                self.link.refuse();
                return Err(Failed);
            }
        }
        self.link.read(into)
    }

    fn write(&mut self, piece: &[u8]) -> Result<usize, Failed>
        ensures link { WritesBytes (gate_state self.old) (gate_state self.new) piece.now result }
        ensures listed { WritesAsListed (writes_of (link_of self.old)) piece.now (starved_of (link_of self.old))
            (starved_of (link_of self.new)) result }
        ensures script { writes_of (link_of self.new) ≡ next_call (writes_of (link_of self.old)) }
        ensures reads { reads_of (link_of self.new) ≡ reads_of (link_of self.old) }
        ensures gates { SameGates self.old self.new }
    {
        let count = self.link.write(piece)?;
        if let Some(gate) = &self.opens
            && count > 0
        {
            // Refused where an earlier write has opened it.
            let _ = gate.try_set(FirstWrite { count });
        }
        Ok(count)
    }

    fn close(&mut self)
        ensures link { Closes (gate_state self.old) (gate_state self.new) }
        ensures scripts { scripts_of (link_of self.new) ≡ scripts_of (link_of self.old) }
        ensures gates { SameGates self.old self.new }
    {
        self.link.close();
    }
}

impl MemoryForm for GateLink {
    ghost use Rattle.link_core.specs.Host.{IsNew, IsFresh};
    ghost use Rattle.link_core.specs.Memory.{restarted_both, marked_both};
    ghost use Rattle.link_core.specs.Gate.{gate_state, gate_bytes, gate_scripts, turns_of, opened_by, SameGates};

    ghost bytes = { gate_bytes };

    ghost scripts = { gate_scripts };

    fn afresh(mut self) -> Self
        ensures new { IsNew (gate_bytes self) (gate_state result) }
        ensures fresh { IsFresh (gate_state result) }
        ensures bytes { gate_bytes result ≡ gate_bytes self }
        ensures scripts { gate_scripts result ≡ restarted_both (gate_scripts self) }

        ensures gates { SameGates self result }
        ensures start { (turns_of result ≡ 0) × (opened_by result ≡ 0) }
    {
        self.link = self.link.afresh();
        self.opened_by = 0;
        self.turns = 0;
        self
    }

    fn marked(mut self, reads: Vec<u64>, writes: Vec<u64>) -> Self
        ensures state { gate_state result ≡ gate_state self }
        ensures bytes { gate_bytes result ≡ gate_bytes self }
        ensures scripts { gate_scripts result ≡ marked_both reads.items writes.items (gate_scripts self) }

        ensures gates { SameGates self result }
        ensures turns { (turns_of result ≡ turns_of self) × (opened_by result ≡ opened_by self) }
    {
        self.link = self.link.marked(reads, writes);
        self
    }
}
