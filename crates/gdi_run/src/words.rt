ghost use Rattle.std.specs.Prelude.{◌≡◌, List, map, IfOk, MatchOption};
ghost use Rattle.command_words.specs.Items.{Text};
ghost use Rattle.command_words.specs.declared.command.CommandName.{CommandName as Command};
ghost use Rattle.gdi_run.specs.Commands.{Names};

use command_words::CommandName;
use gdi_kinds::{CommandWord, NoMemory};
use std::alloc::Global;

/// The command that the first word names, if it is done so far, and the words behind it.
pub(crate) fn command_in(words: &[CommandWord]) -> Option<(CommandName, &[CommandWord])>
    ensures { MatchOption result ((name : Command) (others : List Text) → ¬ Names words.now name others) (λ named. Names words.now named.0 named.1.now) }
{
    match words {
        [word, others @ ..] => match CommandName::of(word.text()) {
            None | Some(CommandName::Report) => None,
            Some(name) => Some((name, others)),
        },
        _ => None,
    }
}

/// The words as texts.
pub(crate) fn texts_of<'a>(
    alloc: Global,
    words: &'a [CommandWord],
) -> Result<Vec<&'a str>, NoMemory>
    ensures { IfOk result (λ texts. map (λ text. text.now) texts.items ≡ words.now) }
{
    let mut texts = Vec::new(alloc);
    for word in words {
        texts.push(word.text())?;
    }
    Ok(texts)
}
