ghost use Rattle.std.specs.Prelude.{◌≡◌, IfOk};

use crate::{Duplicate, NoMemory};
use std::alloc::Global;
use std::marker::Model;

/// One word of a command line, seen as its bytes. It may be empty.
#[derive(Debug, Drop)]
pub struct CommandWord {
    text: String,
}

impl Model for CommandWord {
    ghost use Rattle.std.specs.Prelude.{List, ℕ};
    ghost use Rattle.std.specs.String.{string_bytes};

    ghost Value = { List ℕ };

    ghost view = { λ word. string_bytes word.text };
}

impl CommandWord {
    /// The word with the bytes of a text.
    pub fn of(alloc: Global, text: &str) -> Result<CommandWord, NoMemory>
        ensures { IfOk result (λ word. word ≡ text.now) }
    {
        Ok(CommandWord {
            text: String::from_str(alloc, text)?,
        })
    }

    /// The word as a text.
    pub fn text(&self) -> &str
        ensures { result.now ≡ self.now }
    {
        self.text.as_str()
    }
}

impl Duplicate for CommandWord {
    fn copy(&self, alloc: Global) -> Result<CommandWord, NoMemory> {
        CommandWord::of(alloc, self.text())
    }
}
