//! The command `check`.
ghost use Rattle.std.specs.Prelude.{◌≡◌, ◌++◌, IfOk, OnOk, decimal, option_map, string_bytes};
ghost use Rattle.std.specs.FinMap as finite;
ghost use Rattle.journal_core.specs.Journal.{area_of, side_of, used_of};
ghost use Rattle.link_core.specs.Host.{HandsOutDisk};
ghost use Rattle.repo_top.specs.Files.{Checks, end_of_store, handed, number_lines};

use crate::file_run::{FileEnd, FileRun};
use crate::printing::print_last;
use disk_core::Disk;
use journal_core::Journal;
use link_core::{Host, Sink};
use repo_state::Table;
use repo_store::{StoreFault, open_table};
use std::alloc::{AllocError, Global};
use std::snapshot::Snapshot;

/// The numbers that `check` prints.
#[derive(Drop)]
pub(crate) struct Numbers {
    /// How many objects there are.
    pub objects: usize,
    /// The least number that an identifier may still be minted with.
    pub counter: u64,
    /// How many bytes of the area are used.
    pub used: u64,
    /// The length of an area.
    pub area: u64,
    /// Which area counts, 0 or 1.
    pub side: u8,
    /// The number of the last change, 0 if there was none.
    pub number: u64,
}

/// Reads the file at the path, as an opening of a store does, and prints five lines of numbers of what it stands for. It
/// writes nothing to the file.
///
/// | end | comes |
/// |---|---|
/// | `Done` | the file is a store's, and its lines are printed |
/// | `Out` | the same, but the sink's count of faults rose as the lines were printed |
/// | `Store` | exactly for what the file's bytes say: `NotAStore`, `Version`, `Damaged`, `Unsound` |
/// | `Disk` | only if the disk's count of faults rose |
/// | `Host` | there is no disk, and the host's count of faults rose |
/// | `Memory` | out of memory |
pub fn check_file<H: Host, S: Sink>(
    alloc: Global,
    path: &str,
    host: &mut H,
    out: &mut S,
) -> FileRun<H::Disk>
    ensures host { HandsOutDisk H.Disk.state path.now (H.state host.old) (H.state host.new)
        (handed (option_map (λ s. s.value) result.opened) result.end) }
    ensures checks { Checks H.Disk.state (option_map (λ s. s.value) result.opened) result.disk result.end
        (S.state out.old) (S.state out.new) }
{
    let disk = match host.disk(path) {
        Ok(disk) => disk,
        Err(fault) => return FileRun::without_disk(fault),
    };
    let opened = Snapshot::of(&disk);
    let (disk, end) = check_on(alloc, disk, out);
    FileRun {
        opened: Some(opened),
        disk: Some(disk),
        end,
    }
}

// Checks the file of the disk, and prints its lines.
fn check_on<D: Disk, S: Sink>(alloc: Global, disk: D, out: &mut S) -> (D, FileEnd)
    ensures { Checks D.state (Some disk) (Some result.0) result.1 (S.state out.old) (S.state out.new) }
{
    match open_table(alloc, disk) {
        Ok((journal, table)) => {
            let text = lines_of(alloc, &numbers_of(&journal, &table));
            let disk = journal.into_disk();
            match text {
                Ok(text) => (disk, print_last(out, text.as_bytes())),
                Err(AllocError) => (disk, FileEnd::Memory),
            }
        }
        Err((disk, fault)) => {
            let end = end_of_refusal(fault, disk.fault_count());
            (disk, end)
        }
    }
}

/// The end of a run whose file was refused, at a disk with this count of faults.
pub(crate) fn end_of_refusal(fault: StoreFault, count: u64) -> FileEnd
    ensures { result ≡ end_of_store count fault }
{
    match fault {
        StoreFault::DiskFault => FileEnd::Disk { count },
        StoreFault::Memory => FileEnd::Memory,
        fault => FileEnd::Store(fault),
    }
}

// The numbers of a journal, and of the table that its records give.
fn numbers_of<D: Disk>(journal: &Journal<D>, table: &Table) -> Numbers
    ensures objects { result.objects ≡ finite.len table.now.contents.objects }
    ensures counter { result.counter ≡ table.now.contents.counter }
    ensures used { result.used ≡ used_of journal.now }
    ensures area { result.area ≡ area_of journal.now }
    ensures side { result.side ≡ side_of journal.now }
    ensures number { result.number ≡ table.now.contents.number }
{
    let room = journal.room();
    Numbers {
        objects: table.count(),
        counter: table.counter(),
        used: room.used,
        area: room.area,
        side: journal.side(),
        number: table.number(),
    }
}

// The five lines of these numbers.
fn lines_of(alloc: Global, numbers: &Numbers) -> Result<String, AllocError>
    ensures { IfOk result (λ text. string_bytes text ≡ number_lines numbers.now) }
{
    let mut text = String::new(alloc);
    put_number(&mut text, "objects ", numbers.objects as u64)?;
    put_number(&mut text, "\ncounter ", numbers.counter)?;
    put_number(&mut text, "\nused ", numbers.used)?;
    put_number(&mut text, " of ", numbers.area)?;
    put_number(&mut text, "\nside ", numbers.side as u64)?;
    put_number(&mut text, "\nnumber ", numbers.number)?;
    text.push_str("\n")?;
    Ok(text)
}

// Adds a word and a number to the text.
fn put_number(text: &mut String, word: &str, number: u64) -> Result<(), AllocError>
    ensures { OnOk result (string_bytes text.new ≡ string_bytes text.old ++ (word.now ++ decimal number)) }
{
    let mut digits = itoa::Buffer::new();
    text.push_str(word)?;
    text.push_str(digits.format(number))
}
