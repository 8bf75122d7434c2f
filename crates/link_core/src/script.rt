//! What a form in memory is to do at each of its calls of one kind.
ghost use Rattle.std.specs.Prelude.{◌≡◌, ◌↔◌, ◌⊎◌, [], IsTrue, IsNone, IfSome, Contains, min, slice_index_or};

use base_core::counted;
use std::alloc::Global;

/// What a form in memory is to do at each of its calls of one kind: how many bytes the n-th moves at most, past the
/// list's end all, and which calls fail. Calls are numbered from 1.
#[derive(Drop)]
pub struct Script {
    lengths: Vec<usize>,
    failing: Vec<u64>,
    marked: Vec<u64>,
    calls: u64,
}

impl Script {
    ghost use Rattle.link_core.specs.Memory.{script_of, script, restarted, marked_with, next_call, FailsNext, moved_next};

    /// The first call moves at most the first of the lengths, and so on. The calls of the listed numbers fail.
    pub fn new(alloc: Global, lengths: Vec<usize>, failing: Vec<u64>) -> Script
        ensures { script_of result ≡ script lengths.items failing.items }
    {
        Script {
            lengths,
            failing,
            marked: Vec::new(alloc),
            calls: 0,
        }
    }

    /// Each call moves as much as it can, and none fails. It takes no memory.
    pub fn free(alloc: Global) -> Script
        ensures { script_of result ≡ script [] [] }
    {
        Script::new(alloc, Vec::new(alloc), Vec::new(alloc))
    }

    /// The calls of the listed numbers fail, and all others move as much as they can. It takes no memory.
    pub fn failing(alloc: Global, failing: Vec<u64>) -> Script
        ensures { script_of result ≡ script [] failing.items }
    {
        Script::new(alloc, Vec::new(alloc), failing)
    }

    // Goes back to before the first call.
    pub(crate) fn restart(&mut self)
        ensures { script_of self.new ≡ restarted (script_of self.old) }
    {
        self.calls = 0;
    }

    // Has these calls fail too, in place of those that were marked before.
    pub(crate) fn mark(&mut self, calls: Vec<u64>)
        ensures { script_of self.new ≡ marked_with calls.items (script_of self.old) }
    {
        self.marked = calls;
    }

    // Enters the next call: how many bytes of `wanted` it moves, `None` if it is to fail.
    pub(crate) fn next(&mut self, wanted: usize) -> Option<usize>
        ensures script { script_of self.new ≡ next_call (script_of self.old) }
        ensures none { IsNone result ↔ FailsNext (script_of self.old) }
        ensures some { IfSome result (λ n. n ≡ moved_next (script_of self.old) wanted) }
    {
        let length = listed_length(&self.lengths, self.calls as usize, wanted);
        self.calls = counted(self.calls);
        if is_listed(&self.failing, self.calls) || is_listed(&self.marked, self.calls) {
            return None;
        }
        Some(length)
    }
}

// How many bytes of `wanted` the call at this place of the list moves: at most what the list has, or all past the list.
fn listed_length(lengths: &[usize], place: usize, wanted: usize) -> usize
    ensures { result ≡ min wanted (slice_index_or lengths.now place wanted) }
{
    match lengths.get(place) {
        Some(length) => wanted.min(*length),
        None => wanted,
    }
}

// Whether the call of this number is one to fail.
pub(crate) fn is_listed(failing: &[u64], call: u64) -> bool
    ensures { IsTrue result ↔ Contains failing.now call }
{
    failing.contains(&call)
}
