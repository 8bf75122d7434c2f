//! The command `init`.
ghost use Rattle.std.specs.Prelude.{◌≡◌, ◌≤◌, length, drop, option_map};
ghost use Rattle.journal_core.specs.Layout.{least_area, most_area};
ghost use Rattle.journal_core.specs.Journal.{told};
ghost use Rattle.link_core.specs.Host.{HandsOutDisk};
ghost use Rattle.repo_top.specs.Files.{HandsBack, InitLeaves, IsOfPrinting, Prints, end_of_init, handed, made_line};

use crate::file_run::{FileEnd, FileRun};
use crate::line::{LINE_ROOM, put_text};
use crate::printing::print_last;
use disk_core::Disk;
use itoa::write_digits;
use journal_core::InitFault;
use link_core::{Host, Sink};
use std::snapshot::Snapshot;

/// Makes a file at the path, with areas of this length, and prints the line `made N`. It takes no memory but the host's.
///
/// | end | comes |
/// |---|---|
/// | `Done` | the file was empty, is a new file now, and the line is printed |
/// | `Out` | the same, but the sink's count of faults rose as the line was printed |
/// | `NotEmpty` | exactly if the file had bytes, unless the disk failed; it is as it was |
/// | `Disk` | only if the disk's count of faults rose |
/// | `Host`, `Memory` | there is no disk: the host's count of faults rose, or it was out of memory |
pub fn make_file<H: Host, S: Sink>(
    path: &str,
    area: u64,
    host: &mut H,
    out: &mut S,
) -> FileRun<H::Disk>
    requires least { least_area ≤ area }
    requires most { area ≤ most_area }
    ensures host { HandsOutDisk H.Disk.state path.now (H.state host.old) (H.state host.new)
        (handed (option_map (λ s. s.value) result.opened) result.end) }
    ensures file { HandsBack H.Disk.state (InitLeaves area) result.end (option_map (λ s. s.value) result.opened)
        result.disk }
    ensures out { Prints result.end (made_line area) (S.state out.old) (S.state out.new) }
{
    let disk = match host.disk(path) {
        Ok(disk) => disk,
        Err(fault) => return FileRun::without_disk(fault),
    };
    let opened = Snapshot::of(&disk);
    let (disk, end) = make_on(disk, area, out);
    FileRun {
        opened: Some(opened),
        disk: Some(disk),
        end,
    }
}

// Makes a file on the disk, and prints its line.
fn make_on<D: Disk, S: Sink>(disk: D, area: u64, out: &mut S) -> (D, FileEnd)
    requires least { least_area ≤ area }
    requires most { area ≤ most_area }
    ensures file { InitLeaves area result.1 (D.state disk) (D.state result.0) }
    ensures out { Prints result.1 (made_line area) (S.state out.old) (S.state out.new) }
{
    match journal_core::init(disk, area) {
        Ok(disk) => (disk, print_made(area, out)),
        Err((disk, fault)) => {
            let end = end_of_refusal(fault, disk.fault_count());
            (disk, end)
        }
    }
}

// The end of a run in which no file was made, at a disk with this count of faults.
fn end_of_refusal(fault: InitFault, count: u64) -> FileEnd
    ensures { result ≡ end_of_init count fault }
{
    match fault {
        InitFault::NotEmpty { length } => FileEnd::NotEmpty { length },
        InitFault::DiskFault => FileEnd::Disk { count },
    }
}

// Prints the line of a file that was made.
fn print_made<S: Sink>(area: u64, out: &mut S) -> FileEnd
    ensures printed { Prints result (made_line area) (S.state out.old) (S.state out.new) }
    ensures ended { IsOfPrinting result }
{
    let mut line = [0; LINE_ROOM];
    let start = write_line(area, &mut line);
    print_last(out, &line[start..])
}

// Writes the line at the end of its room, and returns where it begins.
fn write_line(area: u64, line: &mut [u8]) -> usize
    requires { length line.old ≡ 64 }
    ensures start { result ≤ 64 }
    ensures line { drop result line.new ≡ made_line area }
{
    let end = put_text(b"\n", line, LINE_ROOM);
    let digits = write_digits(area, line, end);
    put_text(b"made ", line, digits)
}
