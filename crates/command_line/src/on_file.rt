//! The commands that are given a file and nothing else: `check`, `compact` and `migrate`.
ghost use Rattle.std.specs.Prelude.{◌≡◌, ℕ, List, IfOk, IfErr};
ghost use Rattle.clap.specs.Words.{app_of};
ghost use Rattle.command_line.specs.Apps.{file_app};
ghost use Rattle.command_line.specs.Command.{IsInvalid, IsNamed, IsOnFile};

use crate::bounds::{CHECK_ABOUT, COMPACT_ABOUT, FILE_HELP, MIGRATE_ABOUT};
use crate::fault::refuse;
use crate::values::{command_named, required, values_of};
use crate::{ArgumentsFault, Words};
use clap::Command;
use std::alloc::{AllocError, Global};

/// What a command is given that is given a file alone.
#[derive(Drop)]
pub struct FileArguments<'a> {
    pub file: &'a str,
}

/// A command that is given a file alone: its name, the words that its usage begins with, and what it does.
pub(crate) struct OnFile {
    pub name: &'static str,
    usage: &'static str,
    about: &'static str,
}

/// The commands that are given a file alone.
pub(crate) const CHECK: OnFile = OnFile {
    name: "check",
    usage: "zenkawi check",
    about: CHECK_ABOUT,
};

pub(crate) const COMPACT: OnFile = OnFile {
    name: "compact",
    usage: "zenkawi compact",
    about: COMPACT_ABOUT,
};

pub(crate) const MIGRATE: OnFile = OnFile {
    name: "migrate",
    usage: "zenkawi migrate",
    about: MIGRATE_ABOUT,
};

/// The command.
pub(crate) fn file_command<'a>(alloc: Global, on: &OnFile) -> Result<Command<'a>, AllocError>
    ensures { IfOk result (λ command. app_of command ≡ file_app on.now.name.now) }
{
    command_named(alloc, on.name, on.usage, on.about)?.arg(required(
        alloc, "file", "FILE", FILE_HELP,
    ))
}

/// What the command is given.
pub(crate) fn file_arguments<'a>(
    alloc: Global,
    on: &OnFile,
    words: &'a Words,
) -> Result<FileArguments<'a>, ArgumentsFault>
    requires { IsNamed on.now.name.now words.now }
    ensures ok { IfOk result (λ arguments. IsOnFile on.now.name.now arguments.file.now words.now) }
    ensures err { IfErr result (λ fault. IsInvalid fault → (file : List ℕ)
        → IsOnFile on.now.name.now file words.now → ⊥) }
{
    let mut command = file_command(alloc, on)?;
    let values = values_of(alloc, &mut command, words)?;
    match values.text("file") {
        Some(file) => Ok(FileArguments { file }),
        None => Err(refuse(alloc, &mut command, format!(in alloc; "no file"))),
    }
}
