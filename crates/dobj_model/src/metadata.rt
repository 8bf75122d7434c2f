//! Who made and changed an object, and when.
ghost use Rattle.std.specs.Prelude.{◌↔◌, ◌<◌, ◌≤◌, ◌^◌, IsTrue, length};
ghost use Rattle.dobj_model.specs.Object.{IsMetadata};

use doip_json::Str;

/// The most bytes of who created or changed an object.
const LONGEST: usize = 255;
/// The highest revision.
const LAST_REVISION: u64 = 0x7fff_ffff_ffff_ffff;

/// The `metadata` of an object.
#[derive(Debug, Drop)]
pub struct Metadata {
    /// Who created it: an identifier of at most 255 bytes, or `anonymous`.
    pub created_by: Str,
    /// When, in milliseconds since 1970; 0 stands for an unknown time.
    pub created_on: u64,
    /// Who changed it last, at most 255 bytes.
    pub modified_by: Str,
    /// When, in milliseconds since 1970; 0 stands for an unknown time.
    pub modified_on: u64,
    /// 1 at its creation, and one more at each change; at most 2^63 - 1.
    pub revision: u64,
}

impl Metadata {
    /// Whether an object may have it.
    pub fn fits(&self) -> bool
        ensures { IsTrue result ↔ IsMetadata self.now }
    {
        are_times(self.created_on, self.modified_on)
            && is_revision(self.revision)
            && is_short(&self.created_by)
            && is_short(&self.modified_by)
    }
}

// Every number of 64 bits is a time.
fn are_times(created_on: u64, modified_on: u64) -> bool
    ensures always { IsTrue result }
    ensures created { created_on < 2 ^ 64 }
    ensures modified { modified_on < 2 ^ 64 }
{
    let _ = (created_on, modified_on);
    true
}

fn is_revision(revision: u64) -> bool
    ensures { IsTrue result ↔ ((1 ≤ revision) × (revision < 2 ^ 63)) }
{
    revision >= 1 && revision <= LAST_REVISION
}

fn is_short(name: &Str) -> bool
    ensures { IsTrue result ↔ (length name.now ≤ 255) }
{
    name.get().len() <= LONGEST
}
