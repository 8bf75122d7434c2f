//! Help: a text on what the program, or a command of it, is given.
ghost use Rattle.std.specs.Prelude.{◌≡◌, IfOk, IfSome, None};
ghost use Rattle.command_line.specs.Command.{IsHelp};
ghost use Rattle.command_line.specs.declared.help.Topic.{Topic};

use crate::Words;
use crate::answer::answer_command;
use crate::bounds::{ANSWER_ABOUT, CHECK_ABOUT, COMPACT_ABOUT, INIT_ABOUT, MIGRATE_ABOUT};
use crate::init::init_command;
use crate::on_file::{CHECK, COMPACT, MIGRATE, file_command};
use std::alloc::{AllocError, Global};

/// The version of the program.
const VERSION: &str = "0.1.0";

/// What a help is of.
#[derive(Clone, Copy, Debug, PartialEq, Eq)]
pub enum Topic {
    /// The program.
    Program,
    /// Its version.
    Version,
    /// The command `answer`.
    Answer,
    /// The command `init`.
    Init,
    /// The command `check`.
    Check,
    /// The command `compact`.
    Compact,
    /// The command `migrate`.
    Migrate,
}

/// A help that was asked for.
#[derive(Drop)]
pub struct Help {
    /// What it is of.
    pub topic: Topic,
    /// Its text, which no clause speaks of.
    pub text: String,
}

/// What the arguments ask help of, `None` if they ask for none: `--help` or `--version` as the first word, or `--help` as
/// the only word after a command's name.
pub(crate) fn topic_of(words: &Words) -> Option<Topic>
    ensures some { IfSome result (λ topic. IsHelp topic words.now) }
    ensures none { result ≡ None → (topic : Topic) → IsHelp topic words.now → ⊥ }
{
    if words.is_empty() {
        return None;
    }
    let name = words.item(0).get();
    if name == "--help" {
        return Some(Topic::Program);
    }
    if name == "--version" {
        return Some(Topic::Version);
    }
    if words.len() != 2 || words.item(1).get() != "--help" {
        return None;
    }
    match name {
        "answer" => Some(Topic::Answer),
        "init" => Some(Topic::Init),
        "check" => Some(Topic::Check),
        "compact" => Some(Topic::Compact),
        "migrate" => Some(Topic::Migrate),
        _ => None,
    }
}

// The commands, and what each does.
fn program_text(alloc: Global) -> Result<String, AllocError> {
    format!(in alloc;
        "A repository of digital objects\n\nUsage: zenkawi <COMMAND> ...\n\nCommands:\n  answer   {}\n  init     {}\n  check    {}\n  compact  {}\n  migrate  {}\n\n'zenkawi <COMMAND> --help' says what a command is given; '--version' prints the version\n",
        ANSWER_ABOUT, INIT_ABOUT, CHECK_ABOUT, COMPACT_ABOUT, MIGRATE_ABOUT
    )
}

/// The help of a topic. The texts of the commands are clap's own.
pub(crate) fn help_of(alloc: Global, topic: Topic) -> Result<Help, AllocError>
    ensures { IfOk result (λ help. help.topic ≡ topic) }
{
    let text = match topic {
        Topic::Program => program_text(alloc)?,
        Topic::Version => format!(in alloc; "zenkawi {VERSION}\n")?,
        Topic::Answer => answer_command(alloc)?.render_help()?,
        Topic::Init => init_command(alloc)?.render_help()?,
        Topic::Check => file_command(alloc, &CHECK)?.render_help()?,
        Topic::Compact => file_command(alloc, &COMPACT)?.render_help()?,
        Topic::Migrate => file_command(alloc, &MIGRATE)?.render_help()?,
    };
    Ok(Help { topic, text })
}
