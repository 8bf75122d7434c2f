//! The line that a note is printed as.
use doip_segment::Reason;
use repo_store::StoreFault;
use repo_top::{Note, SessionEnd};
use std::fmt;
use std::io::Error;

/// The line of a note: the name of the program's file, what happened, where there is something what to do, and what the
/// system said of the fault behind it.
#[derive(Clone, Copy)]
pub struct Line<'a> {
    program: &'a str,
    note: &'a Note,
    cause: Option<&'a Error>,
}

/// The line of a note, `None` when there is nothing to note.
pub fn line_of<'a>(program: &'a str, note: &'a Note, cause: Option<&'a Error>) -> Option<Line<'a>> {
    match note {
        Note::Nothing => None,
        note => Some(Line {
            program,
            note,
            cause,
        }),
    }
}

/// The name of a program's file, of the path that it was started by: what follows the last `/`.
pub fn file_name(path: &str) -> &str {
    match path.rsplit_once('/') {
        Some((_, name)) => name,
        None => path,
    }
}

// Why bytes are no message.
fn reason_text(reason: Reason) -> &'static str {
    match reason {
        Reason::Marker => "unexpected byte after '#' or '@'",
        Reason::Length => "expected the length of a chunk, or '#'",
        Reason::ChunkEnd => "expected a line feed after the data of a chunk",
        Reason::TooMany => "more than 2048 segments in a request",
        Reason::JsonTooLong =>
            "a JSON segment is over its limit, 1048576 bytes or that of --request",
        Reason::TooLong =>
            "a request is over its limit; --request N raises it, up to 16777216 bytes",
    }
}

// How a session ended.
fn write_end<W: fmt::Write>(end: SessionEnd, f: &mut fmt::Formatter<W>) -> fmt::Result {
    match end {
        SessionEnd::Ended => f.write_str("the input ended"),
        SessionEnd::Cut { place } => write!(
            f,
            "the input ended inside a request, after byte {place}; a line '#' ends a segment, and one more the request"
        ),
        SessionEnd::Framing { place, reason } => {
            let why = reason_text(reason);
            write!(f, "framing fault at byte {place}: {why}")
        }
        SessionEnd::ReadFault => f.write_str("reading standard input failed"),
        SessionEnd::WriteFault => f.write_str("writing standard output failed"),
    }
}

// Why a file is not opened as a store's.
fn write_store_fault<W: fmt::Write>(fault: &StoreFault, f: &mut fmt::Formatter<W>) -> fmt::Result {
    match fault {
        StoreFault::NotAStore => f.write_str("the file is no store; `init FILE` makes one"),
        StoreFault::Version { byte } => write!(
            f,
            "the file is a store of format {byte}; this program reads format 2"
        ),
        StoreFault::Damaged { place } => write!(f, "the file is damaged at byte {place}"),
        StoreFault::Unsound { id } => {
            let id = id.get();
            write!(f, "the object {id} of the file is not sound")
        }
        StoreFault::DiskFault => f.write_str("reading the store's file failed"),
        StoreFault::Memory => f.write_str("out of memory"),
    }
}

impl fmt::Display for Line<'_> {
    fn fmt<W: fmt::Write>(&self, f: &mut fmt::Formatter<W>) -> fmt::Result {
        write!(f, "{}: ", self.program)?;
        self.write_note(f)?;
        match self.cause {
            Some(cause) => write!(f, ": {cause}"),
            None => Ok(()),
        }
    }
}

impl Line<'_> {
    // What happened, and what to do.
    fn write_note<W: fmt::Write>(&self, f: &mut fmt::Formatter<W>) -> fmt::Result {
        match self.note {
            Note::Nothing => Ok(()),
            Note::Words { text } => f.write_str(text.trim_end()),
            Note::Host => f.write_str("a file, or standard input and output, could not be opened"),
            Note::File { path } => write!(
                f,
                "{} is no accounts file; docs/FORMATS.md says what one is",
                path.get()
            ),
            Note::Disk { .. } => f.write_str("reading or writing the store's file failed"),
            Note::Store(fault) => write_store_fault(fault, f),
            Note::Full { used, asked } => write!(
                f,
                "an area of the file is too short: {used} bytes are used, {asked} more are needed"
            ),
            Note::NotEmpty { length } => write!(
                f,
                "the file has {length} bytes; a store is made in a new or an empty file"
            ),
            Note::Out => f.write_str("writing standard output failed"),
            Note::Memory => f.write_str("out of memory"),
            Note::End(end) => write_end(*end, f),
        }
    }
}
