//! What clap makes of the arguments. All that makes or drops clap's types stands here and in the commands.
ghost use Rattle.std.specs.Prelude.{◌≡◌, ◌≢◌, ◌≤◌, ℕ, [], IfOk, IfErr, IfSome, None, codes, true, false, option_copied};
ghost use Rattle.clap.specs.Words.{app_of, rule_of, first_of, matches_of, fault_of, is_simple_and_free};
ghost use Rattle.clap.specs.Simple.{is_simple};
ghost use Rattle.command_line.specs.Apps.{bare_app, default_rule, option_rule, required_rule};
ghost use Rattle.command_line.specs.Command.{IsInvalid, IsNumberIn};

use crate::fault::fault_of;
use crate::number::number_of;
use crate::{ArgumentsFault, Words};
use clap::{Arg, ArgMatches, Command};
use std::alloc::{AllocError, Global};
use std::marker::Model;

/// The values that clap found, seen as the rows of clap's own definition.
#[derive(Drop)]
pub(crate) struct Values<'a> {
    matches: ArgMatches<'a>,
}

impl<'a> Model for Values<'a> {
    ghost use Rattle.std.specs.Prelude.{List};
    ghost use Rattle.clap.specs.Words.{Row, rows_of, found_of};

    ghost Value = { List Row };

    ghost view = { λ values. rows_of (found_of values.matches) };
}

impl<'a> Values<'a> {
    /// The text with this id, as it was given or as its default.
    pub fn text(&self, id: &str) -> Option<&'a str>
        ensures { option_copied result ≡ first_of id.now self.now }
    {
        self.matches.get_str(id)
    }

    /// The number with this id.
    pub fn number(&self, id: &str, least: u32, greatest: u32) -> Option<u32>
        requires { 1 ≤ least }
        ensures some { IfSome result (IsNumberIn self.now id.now least greatest) }
        ensures none { result ≡ None → (n : ℕ) → IsNumberIn self.now id.now least greatest n → ⊥ }
    {
        number_of(self.text(id)?, least, greatest)
    }
}

/// The values that clap finds in the arguments of the command.
pub(crate) fn values_of<'a>(
    alloc: Global,
    command: &mut Command<'a>,
    words: &'a Words,
) -> Result<Values<'a>, ArgumentsFault>
    requires simple { is_simple (app_of command.now) ≡ true }
    requires free { is_simple_and_free (app_of command.now) ≡ true }
    ensures values { IfOk result (λ values. values ≡ matches_of (app_of command.old) words.now) }
    ensures accepted { IfOk result (λ _. fault_of (app_of command.old) words.now ≡ []) }
    ensures refused { IfErr result (λ fault. IsInvalid fault → fault_of (app_of command.old) words.now ≢ []) }
{
    match command.try_get_matches_from_mut(words.as_slice()) {
        Ok(matches) => Ok(Values { matches }),
        Err(error) => Err(fault_of(alloc, &error)),
    }
}

/// A command of this name. Its usage begins with `usage`.
pub(crate) fn command_named<'a>(
    alloc: Global,
    name: &'a str,
    usage: &str,
    about: &'a str,
) -> Result<Command<'a>, AllocError>
    ensures { IfOk result (λ command. app_of command ≡ bare_app name.now) }
{
    Command::new(alloc, name)
        .disable_help_flag(true)
        .about(about)
        .bin_name(usage)
}

/// An argument that has to be given.
pub(crate) fn required<'a>(alloc: Global, id: &'a str, value: &'a str, help: &'a str) -> Arg<'a>
    ensures rule { rule_of result ≡ required_rule id.now }
    ensures own { result.global ≡ false }
{
    Arg::new(alloc, id)
        .value_name(value)
        .required(true)
        .help(help)
}

/// An option with a value.
pub(crate) fn option<'a>(alloc: Global, id: &'a str, value: &'a str, help: &'a str) -> Arg<'a>
    ensures rule { rule_of result ≡ option_rule id.now }
    ensures own { result.global ≡ false }
{
    Arg::new(alloc, id).long(id).value_name(value).help(help)
}

/// An option with a value that has a default.
pub(crate) fn option_or<'a>(
    alloc: Global,
    id: &'a str,
    value: &'a str,
    default: &'a str,
    help: &'a str,
) -> Arg<'a>
    ensures rule { rule_of result ≡ default_rule id.now default.now }
    ensures own { result.global ≡ false }
{
    option(alloc, id, value, help).default_value(default)
}

/// Says that a number is out of its bounds.
pub(crate) fn wrong_number(
    alloc: Global,
    values: &Values<'_>,
    id: &str,
    least: u32,
    greatest: u32,
) -> Result<String, AllocError> {
    let text = values.text(id).unwrap_or("");
    format!(in alloc;
        "invalid value '{text}' for '--{id} <N>': a number from {least} to {greatest}"
    )
}
