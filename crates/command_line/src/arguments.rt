//! The arguments as a command.
ghost use Rattle.std.specs.Prelude.{IfOk, IfErr};
ghost use Rattle.command_line.specs.Command.{AreArgumentsOf, IsCommand, IsInvalid, command_in};

use crate::answer::answer_arguments;
use crate::fault::invalid;
use crate::help::{help_of, topic_of};
use crate::init::init_arguments;
use crate::on_file::{CHECK, COMPACT, MIGRATE, file_arguments};
use crate::{AnswerArguments, ArgumentsFault, FileArguments, Help, InitArguments, Words};
use std::alloc::Global;

/// A command with what it is given.
#[derive(Drop)]
pub enum Arguments<'a> {
    /// Answers the messages of one session on standard input.
    Answer(AnswerArguments<'a>),
    /// Makes a file that holds an empty repository.
    Init(InitArguments<'a>),
    /// Checks a file that holds a repository.
    Check(FileArguments<'a>),
    /// Writes the objects of a file anew, without its past changes.
    Compact(FileArguments<'a>),
    /// Brings a file of format 1 over to format 2.
    Migrate(FileArguments<'a>),
    /// Prints a help.
    Help(Help),
}

// The fault of a first argument that is no command's name.
fn unknown_command(alloc: Global, words: &Words) -> ArgumentsFault {
    let name = if words.is_empty() {
        ""
    } else {
        words.item(0).get()
    };
    invalid(format!(in alloc;
        "error: unknown command '{name}': answer, init, check, compact or migrate\n\nUsage: zenkawi <COMMAND> ...\n"
    ))
}

/// The command that the arguments are. A fault is `Invalid` exactly when they are no command.
pub fn arguments_of<'a>(alloc: Global, words: &'a Words) -> Result<Arguments<'a>, ArgumentsFault>
    ensures ok { IfOk result (λ arguments. AreArgumentsOf (command_in arguments) words.now) }
    ensures invalid { IfErr result (λ fault. IsInvalid fault → IsCommand words.now → ⊥) }
{
    if let Some(topic) = topic_of(words) {
        return Ok(Arguments::Help(help_of(alloc, topic)?));
    }
    if words.is_empty() {
        return Err(unknown_command(alloc, words));
    }
    match words.item(0).get() {
        "answer" => Ok(Arguments::Answer(answer_arguments(alloc, words)?)),
        "init" => Ok(Arguments::Init(init_arguments(alloc, words)?)),
        "check" => Ok(Arguments::Check(file_arguments(alloc, &CHECK, words)?)),
        "compact" => Ok(Arguments::Compact(file_arguments(alloc, &COMPACT, words)?)),
        "migrate" => Ok(Arguments::Migrate(file_arguments(alloc, &MIGRATE, words)?)),
        _ => Err(unknown_command(alloc, words)),
    }
}
