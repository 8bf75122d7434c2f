//! The side of a form in memory that is written to.
ghost use Rattle.std.specs.Prelude.{◌≡◌, ◌≤◌, [], Some, OnErr};
ghost use Rattle.base_core.specs.Causes.{HasCause};
ghost use Rattle.link_core.specs.Link.{Takes, AppendsPrefix};
ghost use Rattle.link_core.specs.Memory.{script_of, next_call, restarted, WritesAsListed};

use crate::script::Script;
use base_core::{Failed, counted};
use std::alloc::Global;

// A record of what was written, which takes as much of each piece as its script says.
#[derive(Drop)]
pub(crate) struct Recorder {
    pub(crate) written: Vec<u8>,
    pub(crate) script: Script,
    pub(crate) faults: u64,
    pub(crate) starved: u64,
}

impl Recorder {
    // Before the first write.
    pub(crate) fn new(alloc: Global, script: Script) -> Recorder
        ensures written { result.written.items ≡ [] }
        ensures script { result.script ≡ script }
        ensures counts { (result.faults ≡ 0) × (result.starved ≡ 0) }
    {
        Recorder {
            written: Vec::new(alloc),
            script,
            faults: 0,
            starved: 0,
        }
    }

    // Goes back to before the first write.
    pub(crate) fn restart(&mut self)
        ensures written { self.new.written.items ≡ [] }
        ensures script { script_of self.new.script ≡ restarted (script_of self.old.script) }
        ensures counts { (self.new.faults ≡ 0) × (self.new.starved ≡ 0) }
    {
        self.written.clear();
        self.script.restart();
        self.faults = 0;
        self.starved = 0;
    }

    // Writes the prefix of the piece that the script has for this call, and returns its length.
    pub(crate) fn write(&mut self, piece: &[u8]) -> Result<usize, Failed>
        ensures bound { Takes piece.now result }
        ensures written { AppendsPrefix (Some self.old.written.items) (Some self.new.written.items) piece.now result }
        ensures cause { HasCause self.old.faults self.new.faults result }

        ensures listed { WritesAsListed (script_of self.old.script) piece.now self.old.starved self.new.starved result }
        ensures script { script_of self.new.script ≡ next_call (script_of self.old.script) }
    {
        let count = match self.script.next(piece.len()) {
            Some(count) if count > 0 || piece.is_empty() => count,
            _ => {
                self.faults = counted(self.faults);
                return Err(Failed);
            }
        };
        if self.written.extend_from_slice(&piece[..count]).is_err() {
            self.starved = counted(self.starved);
            self.faults = counted(self.faults);
            return Err(Failed);
        }
        Ok(count)
    }
}
