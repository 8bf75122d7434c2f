//! The program: it makes the real host, runs the command of its arguments, prints one line for what there is to note on
//! standard error, and ends with the status. All that matters is in `repo_top`.
#![tactic(auto)]

ghost use Rattle.std.specs.Prelude.{◌≡◌, ◌≢◌, IfOk};
ghost use Rattle.dobj_model.specs.Name.{IsName};
ghost use Rattle.std.specs.IoError.{error_kind};
ghost use Rattle.repo_top.specs.Commands.{IsWords};

mod clock;
mod disk;
mod faults;
mod host;
mod link;
mod listener;
mod note;
mod offered;
mod opening;
mod sink;
#[cfg(test)]
mod tests;

use crate::host::RealHost;
use crate::note::{file_name, line_of};
use crate::offered::{count_keys, digest_element, pick_value, trim_content};
use crate::sink::StdSink;
use command_line::{ArgumentText, Words};
use dobj_model::{Id, Object};
use doip_json::{Json, JsonMap, Str};
use ext_ops::{ExtCode, ExtFault, Extension, Extensions, HookCode, WriteHook};
use repo_top::{Note, Ran, run_plain};
use std::alloc::{AllocError, Global};
use std::io::ErrorKind;
use std::process::ExitCode;
use std::{env, io};

// What the program was started with: the path of its file, and the arguments after it.
#[derive(Drop)]
struct Invocation {
    path: Str,
    arguments: Words,
}

// The path and the arguments of the process.
fn read_invocation(rt: &HostRuntime, alloc: Global) -> io::Result<Invocation> {
    let mut path = Str::of(alloc, "zenkawi")?;
    let mut arguments = Words::new(alloc);
    for (number, argument) in env::args(rt)?.enumerate() {
        if number == 0 {
            path = Str::from_string(argument);
        } else {
            arguments.push(ArgumentText::from_string(argument))?;
        }
    }
    Ok(Invocation { path, arguments })
}

// Prints the line of a note, with what the system said. If that fails there is nobody to report it to.
fn print_note(rt: &HostRuntime, program: &str, note: &Note, cause: Option<&io::Error>) {
    if let Some(line) = line_of(program, note, cause) {
        let _ = eprintln!(rt; "{line}");
    }
}

// What is said of an argument that isn't text.
const NOT_TEXT: &str = "error: an argument is not valid UTF-8";

// The status of a run whose arguments could not be had, and what there is to note: out of memory, or they aren't text.
fn status_without_arguments(alloc: Global, error: &io::Error) -> (u8, Note)
    ensures memory { error_kind error.now ≡ ErrorKind.OutOfMemory → (result.0 ≡ 4) × (result.1 ≡ Note.Memory) }
    ensures others { error_kind error.now ≢ ErrorKind.OutOfMemory → (result.0 ≡ 2) × IsWords result.1 }
{
    if error.kind() == ErrorKind::OutOfMemory {
        return (4, Note::Memory);
    }
    let text = match String::from_str(alloc, NOT_TEXT) {
        Ok(text) => text,
        Err(AllocError) => String::new(alloc),
    };
    (2, Note::Words { text })
}

// The identifier of an operation or the name of a hook.
fn named(alloc: Global, name: &str) -> Result<Id, AllocError>
    requires { IsName name.now }
    ensures { IfOk result (λ id. id ≡ name.now) }
{
    match Id::of(alloc, name)? {
        Some(id) => Ok(id),
        None => unreachable!(),
    }
}

// The names differ, so there is no other fault than out of memory.
fn added(outcome: Result<(), ExtFault>) -> Result<(), AllocError> {
    match outcome {
        Ok(()) => Ok(()),
        Err(_) => Err(AllocError),
    }
}

// Runs the command with the program's own extensions and hooks: the status. Each closure is boxed here, where its proof
// sees which one it is; docs/EXTENDING.md adds another.
fn run_extended(
    rt: &HostRuntime,
    alloc: Global,
    invocation: &Invocation,
) -> Result<u8, AllocError> {
    let mut extensions = Extensions::none(alloc);
    added(extensions.add(Extension {
        code: ExtCode::Digest,
        operation: named(alloc, "ext/Op.Digest")?,
        call: Box::new(
            alloc,
            move |object: &Object, arguments: &JsonMap| digest_element(alloc, object, arguments),
        )?,
    }))?;
    added(extensions.add(Extension {
        code: ExtCode::Pick,
        operation: named(alloc, "ext/Op.Pick")?,
        call: Box::new(
            alloc,
            move |object: &Object, arguments: &JsonMap| pick_value(alloc, object, arguments),
        )?,
    }))?;
    added(extensions.add_hook(WriteHook {
        code: HookCode::Trim,
        name: named(alloc, "trim")?,
        call: Box::new(alloc, move |content: &Json| trim_content(alloc, content))?,
    }))?;
    added(extensions.add_hook(WriteHook {
        code: HookCode::Count,
        name: named(alloc, "count")?,
        call: Box::new(alloc, move |content: &Json| count_keys(alloc, content))?,
    }))?;
    Ok(run(rt, alloc, invocation, extensions))
}

// What the system said of the fault behind a note: the words of the object that had it.
fn cause_of<'a>(
    host: &'a RealHost<'_, HostRuntime>,
    out: &'a StdSink,
    ran: &'a Ran<RealHost<'_, HostRuntime>>,
) -> Option<&'a io::Error> {
    match &ran.note {
        Note::Host => host.last_fault(),
        Note::Disk { .. } => ran.disk.as_ref()?.last_fault(),
        Note::Out => out.last_fault(),
        Note::End(_) => ran.link.as_ref()?.last_fault(),
        _ => None,
    }
}

// Runs the command over the real host, and prints what there is to note: the status.
fn run(rt: &HostRuntime, alloc: Global, invocation: &Invocation, extensions: Extensions) -> u8 {
    let mut host = RealHost::new(rt, alloc, rt.stdin(), rt.stdout());
    let mut out = StdSink::new(rt.stdout());
    let ran = run_plain(
        alloc,
        &invocation.arguments,
        &mut host,
        &mut out,
        extensions,
    );
    let program = file_name(invocation.path.get());
    print_note(rt, program, &ran.note, cause_of(&host, &out, &ran));
    ran.status
}

fn main(rt: HostRuntime) -> ExitCode {
    let alloc = rt.alloc();
    let invocation = match read_invocation(&rt, alloc) {
        Ok(invocation) => invocation,
        Err(error) => {
            let (status, note) = status_without_arguments(alloc, &error);
            print_note(&rt, "zenkawi", &note, None);
            return ExitCode::from(status);
        }
    };
    match run_extended(&rt, alloc, &invocation) {
        Ok(status) => ExitCode::from(status),
        Err(AllocError) => {
            print_note(&rt, file_name(invocation.path.get()), &Note::Memory, None);
            ExitCode::from(4)
        }
    }
}
