//! The command `migrate`.
ghost use Rattle.std.specs.Prelude.{◌≡◌, ◌≤◌, length, drop, option_map};
ghost use Rattle.link_core.specs.Host.{HandsOutDisk};
ghost use Rattle.store_files.specs.First.{Migrates};
ghost use Rattle.repo_top.specs.Files.{IsOfPrinting, Prints, handed};
ghost use Rattle.repo_top.specs.Rewrites.{Rewrites, migrated_line};

use crate::compact::end_of_rewrite;
use crate::file_run::{FileEnd, FileRun};
use crate::line::{LINE_ROOM, put_text};
use crate::printing::print_last;
use disk_core::Disk;
use itoa::write_digits;
use link_core::{Host, Sink};
use std::alloc::Global;
use std::snapshot::Snapshot;
use store_files::{Migration, migrate_file};

/// Brings the file at the path from format 1 to format 2, and prints the line `migrated N`, with the number of its
/// objects. A file of format 2 stays as it is, and the line is `already 2`.
///
/// | end | comes |
/// |---|---|
/// | `Done` | the file was of format 1 and is of format 2 now, or was so already, and the line is printed |
/// | `Out` | the same, but the sink's count of faults rose as the line was printed |
/// | `Store` | exactly for what the file's bytes say in format 1: `NotAStore`, `Version`, `Damaged`, `Unsound` |
/// | `Full` | exactly if the list of format 2 doesn't fit into an area |
/// | `Disk` | only if the disk's count of faults rose; the file holds the list of format 1, or that of format 2 |
/// | `Host` | there is no disk, and the host's count of faults rose |
/// | `Memory` | out of memory |
///
/// Where the list isn't written, the file is as it was.
pub fn migrate_at<H: Host, S: Sink>(
    alloc: Global,
    path: &str,
    host: &mut H,
    out: &mut S,
) -> FileRun<H::Disk>
    ensures host { HandsOutDisk H.Disk.state path.now (H.state host.old) (H.state host.new)
        (handed (option_map (λ s. s.value) result.opened) result.end) }
    ensures rewrites { Rewrites Migrates H.Disk.state migrated_line (option_map (λ s. s.value) result.opened) result.disk
        result.end (S.state out.old) (S.state out.new) }
{
    let disk = match host.disk(path) {
        Ok(disk) => disk,
        Err(fault) => return FileRun::without_disk(fault),
    };
    let opened = Snapshot::of(&disk);
    let (disk, end) = migrate_on(alloc, disk, out);
    FileRun {
        opened: Some(opened),
        disk: Some(disk),
        end,
    }
}

// Brings the file of the disk over, and prints its line.
fn migrate_on<D: Disk, S: Sink>(alloc: Global, disk: D, out: &mut S) -> (D, FileEnd)
    ensures { Rewrites Migrates D.state migrated_line (Some disk) (Some result.0) result.1 (S.state out.old)
        (S.state out.new) }
{
    let (disk, migrated) = migrate_file(alloc, disk);
    match migrated {
        Ok(done) => (disk, print_migrated(done, out)),
        Err(fault) => {
            let end = end_of_rewrite(fault, disk.fault_count());
            (disk, end)
        }
    }
}

// Prints the line of a file that was brought over.
fn print_migrated<S: Sink>(done: Migration, out: &mut S) -> FileEnd
    ensures printed { Prints result (migrated_line done) (S.state out.old) (S.state out.new) }
    ensures ended { IsOfPrinting result }
{
    let mut line = [0; LINE_ROOM];
    let start = write_migrated(done, &mut line);
    print_last(out, &line[start..])
}

// Writes the line at the end of its room, and returns where it begins.
fn write_migrated(done: Migration, line: &mut [u8]) -> usize
    requires { length line.old ≡ 64 }
    ensures start { result ≤ 64 }
    ensures line { drop result line.new ≡ migrated_line done }
{
    match done {
        Migration::Done { objects } => {
            let end = put_text(b"\n", line, LINE_ROOM);
            let digits = write_digits(objects as u64, line, end);
            put_text(b"migrated ", line, digits)
        }
        Migration::Already => put_text(b"already 2\n", line, LINE_ROOM),
    }
}
