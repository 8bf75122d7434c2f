//! The command `answer`.
ghost use Rattle.std.specs.Prelude.{◌≡◌, ℕ, List, None, IfOk, IfErr, IfSome, codes};
ghost use Rattle.clap.specs.Words.{app_of};
ghost use Rattle.command_line.specs.Apps.{answer_app};
ghost use Rattle.command_line.specs.Command.{AnswerCommand, HasAnswer, IsAnswer, IsInvalid, IsNamed, IsNumberIn, IsServiceIn, answer_in};

use crate::bounds::*;
use crate::fault::refuse;
use crate::service::is_service;
use crate::values::{Values, command_named, option, option_or, required, values_of, wrong_number};
use crate::{ArgumentsFault, Words};
use clap::Command;
use std::alloc::{AllocError, Global};

/// What `answer` is given, with the defaults of what is left out.
#[derive(Drop)]
pub struct AnswerArguments<'a> {
    pub service: &'a str,
    pub address: &'a str,
    pub port: u16,
    pub accounts: Option<&'a str>,
    pub store: Option<&'a str>,
    pub request: u32,
}

/// The command, with its options.
pub(crate) fn answer_command<'a>(alloc: Global) -> Result<Command<'a>, AllocError>
    ensures { IfOk result (λ command. app_of command ≡ answer_app) }
{
    command_named(alloc, "answer", "zenkawi answer", ANSWER_ABOUT)?
        .arg(required(alloc, "service", "SERVICE", SERVICE_HELP))?
        .arg(option_or(alloc, "address", "A", ADDRESS, ADDRESS_HELP))?
        .arg(option_or(alloc, "port", "N", PORT, PORT_HELP))?
        .arg(option(alloc, "accounts", "FILE", ACCOUNTS_HELP))?
        .arg(option(alloc, "store", "FILE", STORE_HELP))?
        .arg(option_or(alloc, "request", "N", REQUEST, REQUEST_HELP))
}

// The service.
fn service_in<'a>(values: &Values<'a>) -> Option<&'a str>
    ensures some { IfSome result (λ service. IsServiceIn values.now service.now) }
    ensures none { result ≡ None → (service : List ℕ) → IsServiceIn values.now service → ⊥ }
{
    match values.text("service") {
        Some(service) if is_service(service) => Some(service),
        _ => None,
    }
}

// The port.
fn port_in(values: &Values<'_>) -> Option<u16>
    ensures some { IfSome result (IsNumberIn values.now (codes "port") 1 65535) }
    ensures none { result ≡ None → (n : ℕ) → IsNumberIn values.now (codes "port") 1 65535 n → ⊥ }
{
    match values.number("port", LEAST_PORT, GREATEST_PORT) {
        Some(port) => Some(port as u16),
        None => None,
    }
}

// The values as what `answer` is given.
fn answer_values<'a>(values: &Values<'a>) -> Option<AnswerArguments<'a>>
    ensures some { IfSome result (λ arguments. HasAnswer values.now (answer_in arguments)) }
    ensures none { result ≡ None → (command : AnswerCommand) → HasAnswer values.now command → ⊥ }
{
    Some(AnswerArguments {
        service: service_in(values)?,
        address: values.text("address")?,
        port: port_in(values)?,
        accounts: values.text("accounts"),
        store: values.text("store"),
        request: values.number("request", LEAST_REQUEST, GREATEST_REQUEST)?,
    })
}

// Says which value is wrong, and what it may be.
fn wrong_value(alloc: Global, values: &Values<'_>) -> Result<String, AllocError> {
    if port_in(values).is_none() {
        return wrong_number(alloc, values, "port", LEAST_PORT, GREATEST_PORT);
    }
    if service_in(values).is_some() {
        return wrong_number(alloc, values, "request", LEAST_REQUEST, GREATEST_REQUEST);
    }
    let text = values.text("service").unwrap_or("");
    format!(in alloc;
        "invalid value '{text}' for '<SERVICE>': 1 to {LONGEST_SERVICE} bytes, at most {LONGEST_PREFIX} before its first '/'"
    )
}

/// What `answer` is given.
pub(crate) fn answer_arguments<'a>(
    alloc: Global,
    words: &'a Words,
) -> Result<AnswerArguments<'a>, ArgumentsFault>
    requires { IsNamed (codes "answer") words.now }
    ensures ok { IfOk result (λ arguments. IsAnswer (answer_in arguments) words.now) }
    ensures err { IfErr result (λ fault. IsInvalid fault
        → (command : AnswerCommand) → IsAnswer command words.now → ⊥) }
{
    let mut command = answer_command(alloc)?;
    let values = values_of(alloc, &mut command, words)?;
    match answer_values(&values) {
        Some(arguments) => Ok(arguments),
        None => Err(refuse(alloc, &mut command, wrong_value(alloc, &values))),
    }
}
