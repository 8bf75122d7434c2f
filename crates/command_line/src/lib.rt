//! The arguments of the program, read as a command.
//!
//! [`arguments_of`] is the call to read first. The first argument names the command and is read by hand; the rest is one
//! simple `clap` command for each name, so that `--port 80` and `--port=80` are the same, an argument after `--` is never
//! an option, and an option that is given twice is refused. A number is decimal digits with no sign and no leading zero,
//! read by a call of our own.
//!
//! `--help` and `--version` as the first word, and `--help` as the only word after a command's name, are commands of their
//! own, [`Help`]; anywhere else they are unknown options.
//!
//! A contract sees of [`Words`] the list of the arguments, and of [`Arguments`] its `command_in`, a `Command` of plain
//! data with the defaults filled in. `AreArgumentsOf` of `specs/Command.antt` says which arguments a command has, by
//! clap's own definitions: `fault_of` of the command is empty, and the values are those of `matches_of`. Its fields give
//! the bounds too. A command line is invalid exactly when it is no command. The text of a fault is for a person, and no
//! clause speaks of it.
#![tactic(auto)]

mod answer;
mod argument;
mod arguments;
mod bounds;
mod fault;
mod help;
mod init;
mod law;
mod number;
mod on_file;
mod service;
#[cfg(test)]
mod tests;
mod values;

pub use answer::AnswerArguments;
pub use argument::{ArgumentText, Words};
pub use arguments::{Arguments, arguments_of};
pub use fault::ArgumentsFault;
pub use help::{Help, Topic};
pub use init::InitArguments;
pub use law::a_command_line_is_one_command;
pub use on_file::FileArguments;
pub use service::prefix_of;
