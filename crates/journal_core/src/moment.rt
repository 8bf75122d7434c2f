//! A moment of a disk's clock, for contracts alone.
ghost use Rattle.std.specs.Prelude.{◌≡◌, ℕ};
ghost use Rattle.std.specs.Borrow.{ftrue};

use disk_core::Disk;
use std::alloc::AllocError;
use std::marker::Model;

/// A number of the disk's clock, which contracts see as `number`. It has no bytes.
#[derive(Drop)]
pub struct Moment {
    pub ghost number: { ℕ },
}

impl Model for Moment {
    ghost also_owns = { λ _. ftrue };
}

// A struct with `also_owns` has neither by itself. This one owns nothing.
unsafe impl Send for Moment {}

unsafe impl Sync for Moment {}

impl Clone for Moment {
    ghost use Rattle.std.specs.Prelude.{◌≡◌, ⊤};

    ghost is_clone = { λ moment other. other ≡ moment };

    ghost is_infallible = { λ _. ⊤ };

    fn clone(&self) -> Result<Moment, AllocError> {
        Ok(self.again())
    }
}

impl Moment {
    /// The moment of what has no disk: 0.
    pub fn none() -> Moment
        ensures { result.number ≡ 0 }
    {
        Moment {}
    }

    /// The same moment once more. What `clone` returns too, but this call can't fail.
    pub fn again(&self) -> Moment
        ensures { result.number ≡ self.now.number }
    {
        Moment {}
    }

    // The disk's clock now.
    pub(crate) fn of<D: Disk>(_disk: &D) -> Moment
        ensures { result.number ≡ (D.state _disk.now).moment }
    {
        Moment {}
    }
}
