//! A listener over links in memory.
ghost use Rattle.std.specs.Prelude.{◌≡◌, ◌↔◌, ◌∷◌, ◌++◌, [], Contains, IsErr, IfOk, OnOk, OnErr, MatchResult, option_map};

use crate::script::is_listed;
use crate::{Listener, MemoryForm};
use base_core::{Failed, counted};
use std::alloc::{AllocError, Global};
use std::collections::VecDeque;

/// A listener that accepts the links that it was given, in order.
///
/// It reports what they hold. `accept` returns `Failed` exactly at the calls on its lists. The links that it accepts are
/// as before their first call.
#[derive(Drop)]
pub struct MemoryListener<L: Drop> {
    links: VecDeque<L>,
    failing: Vec<u64>,
    marked: Vec<u64>,
    calls: u64,
    faults: u64,
}

impl<L: MemoryForm + Drop> MemoryListener<L> {
    ghost use Rattle.link_core.specs.Lists.{links_of, accepts_failing, accepts_marked, accept_calls, listener_state};

    /// A listener with no links. The calls of the listed numbers, from 1, fail.
    pub fn new(alloc: Global, failing: Vec<u64>) -> MemoryListener<L>
        ensures none { links_of result ≡ [] }
        ensures failing { (accepts_failing result ≡ failing.items) × (accepts_marked result ≡ []) }
        ensures start { (accept_calls result ≡ 0) × ((listener_state L.bytes result).faults ≡ 0) }
    {
        MemoryListener {
            links: VecDeque::new(alloc),
            failing,
            marked: Vec::new(alloc),
            calls: 0,
            faults: 0,
        }
    }

    /// Adds a link that is accepted after those that were added before.
    pub fn add(&mut self, link: L) -> Result<(), AllocError>
        ensures added { OnOk result (links_of self.new ≡ links_of self.old ++ link ∷ []) }
        ensures unchanged { OnErr result (links_of self.new ≡ links_of self.old) }
        ensures failing { accepts_failing self.new ≡ accepts_failing self.old }
        ensures marked { accepts_marked self.new ≡ accepts_marked self.old }
        ensures calls { accept_calls self.new ≡ accept_calls self.old }
        ensures faults { (listener_state L.bytes self.new).faults ≡ (listener_state L.bytes self.old).faults }
    {
        self.links.push_back(link)?;
        Ok(())
    }

    // The same listener before its first call, of which these calls fail too.
    pub(crate) fn afresh(mut self, marked: Vec<u64>) -> MemoryListener<L>
        ensures links { links_of result ≡ links_of self }
        ensures failing { accepts_failing result ≡ accepts_failing self }
        ensures marked { accepts_marked result ≡ marked.items }
        ensures start { (accept_calls result ≡ 0) × ((listener_state L.bytes result).faults ≡ 0) }
    {
        self.marked = marked;
        self.calls = 0;
        self.faults = 0;
        self
    }
}

impl<L: MemoryForm + Drop> Listener for MemoryListener<L> {
    type Link = L;

    ghost use Rattle.link_core.specs.Listener.{Accepts};
    ghost use Rattle.link_core.specs.Host.{one_more};
    ghost use Rattle.link_core.specs.Lists.{links_of, rest_of, listener_state, accepted_scripts, accepts_failing, accepts_marked, accept_calls, AcceptFails};

    ghost state = { listener_state L.bytes };

    fn accept(&mut self) -> Result<Option<L>, Failed>
        ensures listener { Accepts L.state (listener_state L.bytes self.old) (listener_state L.bytes self.new) result }
        ensures listed { IsErr result ↔ AcceptFails self.old }
        ensures link { IfOk result (λ found.
            option_map L.scripts found ≡ accepted_scripts L.scripts (links_of self.old)) }
        ensures others { MatchResult result (λ _. links_of self.new ≡ rest_of (links_of self.old))
            (λ _. links_of self.new ≡ links_of self.old) }
        ensures calls { accept_calls self.new ≡ one_more (accept_calls self.old) }
        ensures failing { accepts_failing self.new ≡ accepts_failing self.old }
        ensures marked { accepts_marked self.new ≡ accepts_marked self.old }
    {
        self.calls = counted(self.calls);
        if is_listed(&self.failing, self.calls) || is_listed(&self.marked, self.calls) {
            self.faults = counted(self.faults);
            return Err(Failed);
        }
        match self.links.pop_front() {
            Some(link) => Ok(Some(link.afresh())),
            None => Ok(None),
        }
    }
}
