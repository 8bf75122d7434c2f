//! The top call.
ghost use Rattle.std.specs.Prelude.{◌≡◌, ◌≤◌, [], is_some, option_map, None};
ghost use Rattle.std.specs.Option.{ForSome};
ghost use Rattle.ext_ops.specs.Offered.{offered};
ghost use Rattle.repo_top.specs.Commands.{CountsNoFault, IsFaultless, IsRunOf, world};
ghost use Rattle.repo_top.specs.Files.{IsOfPrinting, Prints};
ghost use Rattle.repo_top.specs.Run.{exit, exit_of_file, left, views};
ghost use Rattle.repo_top.specs.Session.{HasTimesOf};

use crate::answer::run_answer;
use crate::check::check_file;
use crate::compact::compact_at;
use crate::file_run::{FileEnd, FileRun};
use crate::init::make_file;
use crate::migrate::migrate_at;
use crate::printing::print_last;
use crate::{Note, Ran};
use command_line::{Arguments, ArgumentsFault, Words, arguments_of};
use ext_ops::Extensions;
use link_core::{Host, Sink};
use repo_step::Past;
use std::alloc::Global;

// A run that ended before any command.
fn ended_early<H: Host>(status: u8, note: Note) -> Ran<H>
where
    H::Disk: Drop,
    H::Link: Drop,
    H::Clock: Drop,
    ensures status { result.status ≡ status }
    ensures note { result.note ≡ note }
    ensures opened { result.opened ≡ None }
    ensures disk { result.disk ≡ None }
    ensures begun { result.begun ≡ None }
    ensures link { result.link ≡ None }
    ensures end { result.end ≡ None }
    ensures clock { result.clock ≡ None }
    ensures past { result.past ≡ [] }
{
    Ran {
        status,
        note,
        opened: None,
        disk: None,
        begun: None,
        link: None,
        end: None,
        clock: None,
        past: Past::empty(),
    }
}

// The status of a command over a file that ended so, and what there is to note.
fn status_of_file(end: FileEnd) -> (u8, Note)
    ensures { exit result.0 result.1 ≡ exit_of_file end }
{
    match end {
        FileEnd::Done => (0, Note::Nothing),
        FileEnd::Host => (9, Note::Host),
        FileEnd::Disk { count } => (6, Note::Disk { count }),
        FileEnd::Store(fault) => (3, Note::Store(fault)),
        FileEnd::Full { used, asked } => (3, Note::Full { used, asked }),
        FileEnd::NotEmpty { length } => (3, Note::NotEmpty { length }),
        FileEnd::Out => (7, Note::Out),
        FileEnd::Memory => (4, Note::Memory),
    }
}

// A run of a command over a file.
fn ran_file<H: Host>(run: FileRun<H::Disk>) -> Ran<H>
where
    H::Disk: Drop,
    H::Link: Drop,
    H::Clock: Drop,
    ensures exit { exit result.status result.note ≡ exit_of_file run.end }
    ensures opened { result.opened ≡ run.opened }
    ensures disk { result.disk ≡ run.disk }
    ensures begun { result.begun ≡ None }
    ensures link { result.link ≡ None }
    ensures end { result.end ≡ None }
    ensures clock { result.clock ≡ None }
    ensures past { result.past ≡ [] }
{
    let FileRun { opened, disk, end } = run;
    let (status, note) = status_of_file(end);
    Ran {
        status,
        note,
        opened,
        disk,
        begun: None,
        link: None,
        end: None,
        clock: None,
        past: Past::empty(),
    }
}

// Prints a help.
fn print_help<D, S: Sink>(text: &str, out: &mut S) -> FileRun<D>
    ensures opened { option_map (λ s. s.value) result.opened ≡ None }
    ensures disk { result.disk ≡ None }
    ensures of_printing { IsOfPrinting result.end }
    ensures out { Prints result.end text.now (S.state out.old) (S.state out.new) }
{
    FileRun {
        opened: None,
        disk: None,
        end: print_last(out, text.as_bytes()),
    }
}

/// Runs the command of the arguments, with these extensions.
///
/// | status | comes | note |
/// |---|---|---|
/// | 2 | exactly when the command line is invalid | `Words` |
/// | 9 | only if the host's count of faults rose | `Host` |
/// | 10 | only if the file of `--accounts` is no accounts file | `File` |
/// | 6 | only if the disk's count of faults rose | `Disk` |
/// | 3 | exactly if the file of the store is refused for its bytes, that of `init` has bytes, or the list that `compact` or `migrate` writes doesn't fit | `Store`, `NotEmpty`, `Full` |
/// | 7 | only if the count of faults of the link or of `out` rose | `End`, `Out` |
/// | 4 | out of memory, outside a session's replies | `Memory` |
/// | 0 | otherwise | `End` after a cut or a framing fault, else `Nothing` |
///
/// The first whose condition holds is the status. `answer` replies to each message on the host's console, in order, over
/// the store in the file that the arguments name, or over one that holds nothing at first and lasts as long as the session.
/// `init` makes a file, `check` reads one, `compact` writes one anew, and `migrate` brings one from format 1 to format 2;
/// they print on `out`, as `--help` and `--version` do.
pub fn run_plain<H: Host, S: Sink>(
    alloc: Global,
    words: &Words,
    host: &mut H,
    out: &mut S,
    extensions: Extensions,
) -> Ran<H>
where
    H::Disk: Drop,
    H::Link: Drop,
    H::Clock: Drop,
    // Of `answer`: however the input is cut into reads, the messages are those that the grammar defines. Written are, in
    // order, the texts of the replies of one history of the one-thread repository, or a prefix of them if the link failed.
    // A crash at any moment leaves a file that stands for a prefix of the history's changes, with every acknowledged one.
    ensures run { IsRunOf (views H.Disk.Disk H.Link.state) words.now (offered extensions.operations extensions.hooks)
        (world (H.state host.old) (S.state out.old)) (world (H.state host.new) (S.state out.new))
        (left (exit result.status result.note) (option_map (λ s. s.value) result.opened) result.disk
        (option_map (λ s. s.value) result.begun) result.link result.end result.past) }
    // If no fault was counted, the command is done, or its line is invalid, a file is refused, or it is out of memory.
    // Each turn of its session was done or out of memory, and the session ended as its input asks.
    ensures complete { CountsNoFault (views H.Disk.Disk H.Link.state)
        (world (H.state host.old) (S.state out.old)) (world (H.state host.new) (S.state out.new))
        (left (exit result.status result.note) (option_map (λ s. s.value) result.opened) result.disk
        (option_map (λ s. s.value) result.begun) result.link result.end result.past) → IsFaultless
        (left (exit result.status result.note) (option_map (λ s. s.value) result.opened) result.disk
        (option_map (λ s. s.value) result.begun) result.link result.end result.past) }
    // The times of the history are what the clock gave, in order.
    ensures times { ForSome result.clock (λ clock. HasTimesOf (H.Clock.given clock) result.past) }
    ensures clock { is_some result.clock ≡ is_some result.link }
{
    let arguments = match arguments_of(alloc, words) {
        Ok(arguments) => arguments,
        Err(ArgumentsFault::Invalid { text }) => return ended_early(2, Note::Words { text }),
        Err(ArgumentsFault::Memory) => return ended_early(4, Note::Memory),
    };
    match arguments {
        Arguments::Answer(arguments) => run_answer(alloc, &arguments, host, extensions),
        Arguments::Init(arguments) => {
            ran_file(make_file(arguments.file, arguments.area, host, out))
        }
        Arguments::Check(arguments) => ran_file(check_file(alloc, arguments.file, host, out)),
        Arguments::Compact(arguments) => ran_file(compact_at(alloc, arguments.file, host, out)),
        Arguments::Migrate(arguments) => ran_file(migrate_at(alloc, arguments.file, host, out)),
        Arguments::Help(help) => ran_file(print_help(&help.text, out)),
    }
}
