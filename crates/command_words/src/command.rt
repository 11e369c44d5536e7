ghost use Rattle.std.specs.Prelude.{◌≡◌, ◌≢◌, MatchOption};
ghost use Rattle.command_words.specs.declared.command.CommandName.{CommandName};
ghost use Rattle.command_words.specs.Commands.{command_text};

use crate::Source;

/// A command, by its own word.
#[derive(Clone, Copy, Debug, PartialEq, Eq)]
pub enum CommandName {
    Run,
    Check,
    Report,
    Drill,
}

/// What a command line asks for.
#[derive(Debug, Drop)]
pub enum Command<'a> {
    /// To load, to run the script of this file, and to write what comes of it.
    Run {
        source: Source<'a>,
        script: &'a str,
    },
    /// To say whether the output of this file is legal for the load and the script.
    Check {
        source: Source<'a>,
        script: &'a str,
        output: &'a str,
    },
    /// To load and to write a line for each visitor.
    Report {
        source: Source<'a>,
    },
    /// To make a load and a script of this size, 1 to 10,000, from a seed, to run them, and to write a summary.
    Drill {
        size: u64,
        seed: u64,
    },
}

impl CommandName {
    /// The command that a word names.
    pub fn of(word: &str) -> Option<CommandName>
        ensures { MatchOption result ((name : CommandName) → word.now ≢ command_text name) (λ name. word.now ≡ command_text name) }
    {
        match word {
            "run" => Some(CommandName::Run),
            "check" => Some(CommandName::Check),
            "report" => Some(CommandName::Report),
            "drill" => Some(CommandName::Drill),
            _ => None,
        }
    }
}
