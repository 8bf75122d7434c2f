//! Why the arguments are no command.
ghost use Rattle.std.specs.Prelude.{◌≡◌, ◌≢◌};
ghost use Rattle.clap.specs.Words.{kind_of};
ghost use Rattle.clap.specs.declared.error.kind.ErrorKind.TheVariants.{OutOfMemory};
ghost use Rattle.command_line.specs.Command.{IsInvalid};

use clap::error::ErrorKind;
use clap::{Command, Error};
use std::alloc::{AllocError, Global};

/// Why the arguments are no command.
#[derive(Drop)]
pub enum ArgumentsFault {
    /// The command line is invalid. The text says what is wrong with it, and has the usage of the command.
    Invalid { text: String },
    /// An allocation was refused.
    Memory,
}

impl From<AllocError> for ArgumentsFault {
    ghost use Rattle.std.specs.Prelude.{◌≡◌};
    ghost use Rattle.command_line.specs.declared.fault.ArgumentsFault.TheVariants.{Memory};

    ghost from_gives = { λ _ fault. fault ≡ Memory };

    fn from(_: AllocError) -> ArgumentsFault {
        ArgumentsFault::Memory
    }
}

/// The fault with this text.
pub(crate) fn invalid(text: Result<String, AllocError>) -> ArgumentsFault {
    match text {
        Ok(text) => ArgumentsFault::Invalid { text },
        Err(AllocError) => ArgumentsFault::Memory,
    }
}

/// The fault that clap's error is. Its exit code is 2 out of memory too, so its kind is asked.
pub(crate) fn fault_of(alloc: Global, error: &Error) -> ArgumentsFault
    ensures { IsInvalid result → kind_of error.now ≢ OutOfMemory }
{
    if matches!(error.kind(), ErrorKind::OutOfMemory) {
        return ArgumentsFault::Memory;
    }
    invalid(format!(in alloc; "{error}"))
}

/// The fault of a value that is out of its bounds, with the usage of the command.
pub(crate) fn refuse(
    alloc: Global,
    command: &mut Command<'_>,
    message: Result<String, AllocError>,
) -> ArgumentsFault {
    let Ok(message) = message else {
        return ArgumentsFault::Memory;
    };
    match command.error(ErrorKind::ValueValidation, message.as_str()) {
        Ok(error) => fault_of(alloc, &error),
        Err(AllocError) => ArgumentsFault::Memory,
    }
}
