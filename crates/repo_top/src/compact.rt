//! The command `compact`.
ghost use Rattle.std.specs.Prelude.{◌≡◌, ◌≤◌, length, drop, option_map};
ghost use Rattle.link_core.specs.Host.{HandsOutDisk};
ghost use Rattle.store_files.specs.Rewriting.{Compacts};
ghost use Rattle.repo_top.specs.Files.{IsOfPrinting, Prints, handed};
ghost use Rattle.repo_top.specs.Rewrites.{Rewrites, end_of_rewrite, used_line};

use crate::check::end_of_refusal;
use crate::file_run::{FileEnd, FileRun};
use crate::line::{LINE_ROOM, put_text};
use crate::printing::print_last;
use disk_core::Disk;
use itoa::write_digits;
use journal_core::Room;
use link_core::{Host, Sink};
use std::alloc::Global;
use std::snapshot::Snapshot;
use store_files::{RewriteFault, compact_file};

/// Writes the contents of the file at the path anew, without its past changes, and prints the line `used U of A`.
///
/// | end | comes |
/// |---|---|
/// | `Done` | the file is a store's, holds the shortest list of changes now, and the line is printed |
/// | `Out` | the same, but the sink's count of faults rose as the line was printed |
/// | `Store` | exactly for what the file's bytes say: `NotAStore`, `Version`, `Damaged`, `Unsound` |
/// | `Full` | exactly if that list doesn't fit into an area |
/// | `Disk` | only if the disk's count of faults rose; the file holds the list from before, or the new one |
/// | `Host` | there is no disk, and the host's count of faults rose |
/// | `Memory` | out of memory |
///
/// Where the list isn't written, the file is as it was.
pub fn compact_at<H: Host, S: Sink>(
    alloc: Global,
    path: &str,
    host: &mut H,
    out: &mut S,
) -> FileRun<H::Disk>
    ensures host { HandsOutDisk H.Disk.state path.now (H.state host.old) (H.state host.new)
        (handed (option_map (λ s. s.value) result.opened) result.end) }
    ensures rewrites { Rewrites Compacts H.Disk.state used_line (option_map (λ s. s.value) result.opened) result.disk
        result.end (S.state out.old) (S.state out.new) }
{
    let disk = match host.disk(path) {
        Ok(disk) => disk,
        Err(fault) => return FileRun::without_disk(fault),
    };
    let opened = Snapshot::of(&disk);
    let (disk, end) = compact_on(alloc, disk, out);
    FileRun {
        opened: Some(opened),
        disk: Some(disk),
        end,
    }
}

// Compacts the file of the disk, and prints its line.
fn compact_on<D: Disk, S: Sink>(alloc: Global, disk: D, out: &mut S) -> (D, FileEnd)
    ensures { Rewrites Compacts D.state used_line (Some disk) (Some result.0) result.1 (S.state out.old) (S.state out.new) }
{
    let (disk, compacted) = compact_file(alloc, disk);
    match compacted {
        Ok(room) => (disk, print_used(room, out)),
        Err(fault) => {
            let end = end_of_rewrite(fault, disk.fault_count());
            (disk, end)
        }
    }
}

/// The end of a run whose file was not written anew, at a disk with this count of faults.
pub(crate) fn end_of_rewrite(fault: RewriteFault, count: u64) -> FileEnd
    ensures { result ≡ end_of_rewrite count fault }
{
    match fault {
        RewriteFault::Store(fault) => end_of_refusal(fault, count),
        RewriteFault::Full { used, asked } => FileEnd::Full { used, asked },
    }
}

// Prints the line of a file that was compacted.
fn print_used<S: Sink>(room: Room, out: &mut S) -> FileEnd
    ensures printed { Prints result (used_line room) (S.state out.old) (S.state out.new) }
    ensures ended { IsOfPrinting result }
{
    let mut line = [0; LINE_ROOM];
    let start = write_used(room, &mut line);
    print_last(out, &line[start..])
}

// Writes the line at the end of its room, and returns where it begins.
fn write_used(room: Room, line: &mut [u8]) -> usize
    requires { length line.old ≡ 64 }
    ensures start { result ≤ 64 }
    ensures line { drop result line.new ≡ used_line room }
{
    let end = put_text(b"\n", line, LINE_ROOM);
    let area = write_digits(room.area, line, end);
    let word = put_text(b" of ", line, area);
    let used = write_digits(room.used, line, word);
    put_text(b"used ", line, used)
}
