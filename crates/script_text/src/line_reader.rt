ghost use Rattle.std.specs.Prelude.{◌≡◌, List, ℕ, true, MatchResult, MatchOption, Option, IfOk};
ghost use Rattle.std.specs.Option.{option_copied};
ghost use Rattle.text_words.specs.Forms.{IsWrong, OrMemory, texts};
ghost use Rattle.text_words.specs.Words.{AreBehind, IsOpening};
ghost use Rattle.script_text.specs.Faults.{IsClean, IsFault, DoesStep, HasWords, IsStepOf, OrNoMemory, AreFound, form_behind, stop_of};

use crate::bytes::is_clean;
use crate::call_reader::call_of;
use crate::place::{Stage, may_stand};
use crate::step::{Head, Step, head_of};
use crate::stop::Stop;
use gdi_kinds::NoMemory;
use std::alloc::Global;
use text_words::{Wrong, cut, opening_of};

/// The step that a line does, the limits apart. `words` is room for the line's words.
pub(crate) fn step_of<'a>(
    alloc: Global,
    stage: Stage,
    line: &'a [u8],
    words: &mut Vec<&'a [u8]>,
) -> Result<Step, Stop>
    ensures { MatchResult result (DoesStep stage line.now) (OrNoMemory (IsFault stage line.now)) }
{
    if !is_clean(line) {
        return Err(Stop::Bad(1));
    }
    let (word, behind) = opening_of(line);
    let Some(head) = head_of(word) else {
        return Err(Stop::Bad(2));
    };
    if !may_stand(stage, head) {
        return Err(Stop::Bad(3));
    }
    if !find_words(behind, words)? {
        return Err(Stop::Bad(6));
    }
    match step_with(alloc, head, words.as_slice()) {
        Ok(step) => Ok(step),
        Err(wrong) => Err(stop_of(wrong)),
    }
}

// Puts the words behind the first one into `words`. False: there are none, since a quoted word is ill spelled.
fn find_words<'a>(behind: Option<&'a [u8]>, words: &mut Vec<&'a [u8]>) -> Result<bool, NoMemory>
    ensures { IfOk result (λ found. AreFound found (option_copied behind.entry) (texts words.new.items)) }
{
    match behind {
        Some(rest) => cut(rest, words),
        None => {
            words.clear();
            Ok(true)
        }
    }
}

// The step of a head that the words behind it spell.
fn step_with(alloc: Global, head: Head, words: &[&[u8]]) -> Result<Step, Wrong>
    ensures { MatchResult result (IsStepOf head (texts words.now)) (OrMemory (IsWrong (form_behind head) (texts words.now))) }
{
    if let Head::Does(verb) = head {
        return Ok(Step::Does(call_of(alloc, verb, words)?));
    }
    if !words.is_empty() {
        return Err(Wrong::Form);
    }
    match head {
        Head::Section => Ok(Step::Section),
        Head::Begin { whole } => Ok(Step::Begin { whole }),
        Head::Close { aborts } => Ok(Step::Close { aborts }),
        Head::Does(_) => unreachable!(),
    }
}

// The kind of what is wrong with words.
fn stop_of(wrong: Wrong) -> Stop
    ensures { result ≡ stop_of wrong }
{
    match wrong {
        Wrong::Form => Stop::Bad(4),
        Wrong::Number => Stop::Bad(5),
        Wrong::Value => Stop::Bad(6),
        Wrong::Name => Stop::Bad(7),
        Wrong::NoMemory => Stop::NoMemory,
    }
}
