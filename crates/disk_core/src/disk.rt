//! A disk: one file, by what a read of it gives and by what a crash may leave of it.
ghost use Rattle.std.specs.Prelude.{◌≡◌, ◌+◌, ◌-◌, ◌^◌, ◌<◌, length, min};
ghost use Rattle.disk_core.specs.Disk.{DiskState, ReadsAsImage, ReturnsLength, ReadsAt, WritesAt, MakesDurable};

use base_core::Failed;

/// One file on a device that may crash at any moment, also inside a call.
///
/// Between two syncs each written range, and all that lies past the old end, may hold any bytes after a crash; bytes
/// outside stay. After a sync that succeeded a crash leaves what a read gives.
///
/// A disk need not report what it holds. The facts on content and on images are about a disk that does; those on the
/// count of faults are about every disk.
pub trait Disk {
    /// What contracts see of the disk: its content, its clock, its images, its syncs, its count of faults.
    ghost state: { Self → DiskState };

    /// The file's length in bytes.
    fn length(&mut self) -> Result<u64, Failed>
        ensures { ReturnsLength (state self.old) (state self.new) result };

    /// Fills a prefix of `into` with the bytes from `place` on, and returns its length. It is 0 only for an empty
    /// `into`, or at or past the file's end. What lies in `into` after that prefix is not specified.
    fn read_at(&mut self, place: u64, into: &mut [u8]) -> Result<usize, Failed>
        ensures { ReadsAt (state self.old) (state self.new) place into.new result };

    /// Writes the whole piece at `place`. Bytes between the old end and `place` read as zero. After `Failed` the file
    /// reads as one of the images that the call might have left.
    fn write_at(&mut self, place: u64, piece: &[u8]) -> Result<(), Failed>
        requires { place + length piece.now < 2 ^ 62 }
        ensures { WritesAt (state self.old) (state self.new) place piece.now result };

    /// Makes what was written durable. After `Failed` the file reads as one of the images.
    fn sync(&mut self) -> Result<(), Failed>
        ensures { MakesDurable (state self.old) (state self.new) result };

    /// How often a call has failed so far, or 2^64 - 1 if that is more.
    fn fault_count(&self) -> u64
        ensures { result ≡ min (state self.now).faults (2 ^ 64 - 1) };

    /// The file as it reads is one of the images.
    ghost reads_as_image: { (disk : Self) → ReadsAsImage (state disk) };
}
