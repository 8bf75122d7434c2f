//! A sink into memory.
ghost use Rattle.std.specs.Prelude.{◌≡◌, [], Some};

use crate::Sink;
use crate::recorder::Recorder;
use crate::script::Script;
use base_core::Failed;
use std::alloc::Global;

/// A sink whose writes go into a record.
///
/// It reports all that it holds. A call returns `Failed` exactly when its script says so, when the script has it take
/// nothing of a piece with bytes, and when out of memory for the record, which `starved` counts.
#[derive(Drop)]
pub struct MemorySink {
    out: Recorder,
}

impl MemorySink {
    ghost use Rattle.link_core.specs.Memory.{sink_state, sink_script, sink_starved, script_of};

    /// An empty sink, whose writes do what the script says.
    pub fn new(alloc: Global, writes: Script) -> Self
        ensures start { ((sink_state result).written ≡ Some []) × ((sink_state result).faults ≡ 0) }
        ensures script { sink_script result ≡ script_of writes }
        ensures starved { sink_starved result ≡ 0 }
    {
        MemorySink {
            out: Recorder::new(alloc, writes),
        }
    }

    /// What was written so far.
    pub fn written(&self) -> &[u8]
        ensures { (sink_state self.now).written ≡ Some result.now }
    {
        &self.out.written
    }

    /// How often a call has failed, for whatever cause.
    pub fn faults(&self) -> u64
        ensures { result ≡ (sink_state self.now).faults }
    {
        self.out.faults
    }

    /// How often a write ran out of memory.
    pub fn starved(&self) -> u64
        ensures { result ≡ sink_starved self.now }
    {
        self.out.starved
    }
}

impl Sink for MemorySink {
    ghost use Rattle.link_core.specs.Link.{SinkTakes};
    ghost use Rattle.link_core.specs.Memory.{sink_state, sink_script, sink_starved, next_call, WritesAsListed};

    ghost state = { sink_state };

    fn write(&mut self, piece: &[u8]) -> Result<usize, Failed>
        ensures sink { SinkTakes (sink_state self.old) (sink_state self.new) piece.now result }
        ensures listed { WritesAsListed (sink_script self.old) piece.now (sink_starved self.old) (sink_starved self.new)
            result }
        ensures script { sink_script self.new ≡ next_call (sink_script self.old) }
    {
        self.out.write(piece)
    }
}
