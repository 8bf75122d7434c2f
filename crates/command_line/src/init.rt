//! The command `init`.
ghost use Rattle.std.specs.Prelude.{◌≡◌, None, IfOk, IfErr, IfSome, codes};
ghost use Rattle.clap.specs.Words.{app_of};
ghost use Rattle.command_line.specs.Apps.{init_app};
ghost use Rattle.command_line.specs.Command.{InitCommand, HasInit, IsInit, IsInvalid, IsNamed, init_in};

use crate::bounds::{AREA, AREA_HELP, FILE_HELP, GREATEST_AREA, INIT_ABOUT, LEAST_AREA};
use crate::fault::refuse;
use crate::values::{Values, command_named, option_or, required, values_of, wrong_number};
use crate::{ArgumentsFault, Words};
use clap::Command;
use std::alloc::{AllocError, Global};

/// What `init` is given, with the default of what is left out.
#[derive(Drop)]
pub struct InitArguments<'a> {
    pub file: &'a str,
    pub area: u64,
}

/// The command, with its options.
pub(crate) fn init_command<'a>(alloc: Global) -> Result<Command<'a>, AllocError>
    ensures { IfOk result (λ command. app_of command ≡ init_app) }
{
    command_named(alloc, "init", "zenkawi init", INIT_ABOUT)?
        .arg(required(alloc, "file", "FILE", FILE_HELP))?
        .arg(option_or(alloc, "area", "N", AREA, AREA_HELP))
}

// The values as what `init` is given.
fn init_values<'a>(values: &Values<'a>) -> Option<InitArguments<'a>>
    ensures some { IfSome result (λ arguments. HasInit values.now (init_in arguments)) }
    ensures none { result ≡ None → (command : InitCommand) → HasInit values.now command → ⊥ }
{
    Some(InitArguments {
        file: values.text("file")?,
        area: u64::from(values.number("area", LEAST_AREA, GREATEST_AREA)?),
    })
}

/// What `init` is given.
pub(crate) fn init_arguments<'a>(
    alloc: Global,
    words: &'a Words,
) -> Result<InitArguments<'a>, ArgumentsFault>
    requires { IsNamed (codes "init") words.now }
    ensures ok { IfOk result (λ arguments. IsInit (init_in arguments) words.now) }
    ensures err { IfErr result (λ fault. IsInvalid fault
        → (command : InitCommand) → IsInit command words.now → ⊥) }
{
    let mut command = init_command(alloc)?;
    let values = values_of(alloc, &mut command, words)?;
    match init_values(&values) {
        Some(arguments) => Ok(arguments),
        None => {
            let message = wrong_number(alloc, &values, "area", LEAST_AREA, GREATEST_AREA);
            Err(refuse(alloc, &mut command, message))
        }
    }
}
