//! The law on command lines. It does nothing when it runs.
ghost use Rattle.std.specs.Prelude.{◌≡◌, ℕ, List};
ghost use Rattle.command_line.specs.Command.{AreArgumentsOf, Command};

/// A command line is one command at most.
pub fn a_command_line_is_one_command()
    ensures { (words : List (List ℕ)) (a b : Command) → AreArgumentsOf a words → AreArgumentsOf b words → a ≡ b }
{}
