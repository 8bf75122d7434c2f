//! A disk that lets some calls of another disk pass, and fails each one after.
ghost use Rattle.std.specs.Prelude.{◌≡◌, ◌-◌, ◌<◌, OnOk, OnErr};
ghost use Rattle.disk_core.specs.Disk.{OnlyReads};
ghost use Rattle.disk_core.specs.Fused.{state_by};

use crate::Disk;
use base_core::{Failed, counted};

/// Lets so many calls of the disk inside pass, and fails each one after.
#[derive(Drop)]
pub struct FusedDisk<D: Disk> {
    inner: D,
    passes: u64,
    refused: u64,
}

impl<D: Disk> FusedDisk<D> {
    ghost use Rattle.disk_core.specs.Fused.{inner_of, passes_of, refused_of};

    /// Lets `passes` calls pass.
    pub fn new(inner: D, passes: u64) -> FusedDisk<D>
        ensures inner { inner_of result ≡ inner }
        ensures passes { passes_of result ≡ passes }
        ensures refused { refused_of result ≡ 0 }
    {
        FusedDisk {
            inner,
            passes,
            refused: 0,
        }
    }

    /// The disk inside, lent.
    pub fn inner(&self) -> &D
        ensures { result.now ≡ inner_of self.now }
    {
        &self.inner
    }

    /// Gives the disk inside back.
    pub fn into_inner(self) -> D
        ensures { result ≡ inner_of self }
    {
        let FusedDisk {
            inner,
            passes: _,
            refused: _,
        } = self;
        inner
    }

    // Lets a call pass, or refuses it. The disk inside is then asked for its length, so that its clock goes on.
    fn spend(&mut self) -> Result<(), Failed>
        ensures passes { self.new.passes ≡ self.old.passes - 1 }
        ensures lets { OnOk result (0 < self.old.passes) }
        ensures spent { OnErr result (self.old.passes ≡ 0) }

        ensures inner { OnOk result (self.new.inner ≡ self.old.inner) }
        ensures count { OnOk result (self.new.refused ≡ self.old.refused) }
        ensures refused { OnErr result (OnlyReads (state_by D.state self.old) (state_by D.state self.new) result) }
    {
        if self.passes == 0 {
            let _ = self.inner.length();
            self.refused = counted(self.refused);
            return Err(Failed);
        }
        self.passes -= 1;
        Ok(())
    }
}

impl<D: Disk> Disk for FusedDisk<D> {
    ghost use Rattle.std.specs.Prelude.{◌+◌, ◌^◌, length, min};
    ghost use Rattle.disk_core.specs.Disk.{ReturnsLength, ReadsAt, WritesAt, MakesDurable};
    ghost use Rattle.disk_core.specs.Fused.{inner_of, Fuses};

    ghost state = { state_by D.state };

    ghost reads_as_image = { λ disk. D.reads_as_image (inner_of disk) };

    fn length(&mut self) -> Result<u64, Failed>
        ensures disk { ReturnsLength (state_by D.state self.old) (state_by D.state self.new) result }
        ensures fused { Fuses D.state self.old self.new result }
    {
        self.spend()?;
        self.inner.length()
    }

    fn read_at(&mut self, place: u64, into: &mut [u8]) -> Result<usize, Failed>
        ensures disk { ReadsAt (state_by D.state self.old) (state_by D.state self.new) place into.new result }
        ensures fused { Fuses D.state self.old self.new result }
    {
        self.spend()?;
        self.inner.read_at(place, into)
    }

    fn write_at(&mut self, place: u64, piece: &[u8]) -> Result<(), Failed>
        requires { place + length piece.now < 2 ^ 62 }
        ensures disk { WritesAt (state_by D.state self.old) (state_by D.state self.new) place piece.now result }
        ensures fused { Fuses D.state self.old self.new result }
    {
        self.spend()?;
        self.inner.write_at(place, piece)
    }

    fn sync(&mut self) -> Result<(), Failed>
        ensures disk { MakesDurable (state_by D.state self.old) (state_by D.state self.new) result }
        ensures fused { Fuses D.state self.old self.new result }
    {
        self.spend()?;
        self.inner.sync()
    }

    fn fault_count(&self) -> u64
        ensures { result ≡ min (state_by D.state self.now).faults (2 ^ 64 - 1) }
    {
        self.inner.fault_count().saturating_add(self.refused)
    }
}
