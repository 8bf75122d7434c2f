//! Printing a text on a sink.
ghost use Rattle.std.specs.Prelude.{OnOk, OnErr};
ghost use Rattle.repo_top.specs.Files.{PrintsAll, PrintsPart, Prints, IsOfPrinting};

use crate::file_run::FileEnd;
use base_core::Failed;
use link_core::Sink;

/// Prints all of the text, in as few writes as the sink takes. It takes no memory.
///
/// # Errors
/// `Failed` only if the sink's count of faults rose in this call. Then a prefix was printed.
pub(crate) fn print<S: Sink>(out: &mut S, text: &[u8]) -> Result<(), Failed>
    ensures all { OnOk result (PrintsAll text.now (S.state out.old) (S.state out.new)) }
    ensures part { OnErr result (PrintsPart text.now (S.state out.old) (S.state out.new)) }
{
    let mut printed = 0;
    while printed < text.len() {
        match out.write(&text[printed..]) {
            Ok(count) => printed += count,
            Err(Failed) => return Err(Failed),
        }
    }
    Ok(())
}

/// Prints the text with which a command ends whose work is done.
pub(crate) fn print_last<S: Sink>(out: &mut S, text: &[u8]) -> FileEnd
    ensures printed { Prints result text.now (S.state out.old) (S.state out.new) }
    ensures ended { IsOfPrinting result }
{
    match print(out, text) {
        Ok(()) => FileEnd::Done,
        Err(Failed) => FileEnd::Out,
    }
}
