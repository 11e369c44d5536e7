ghost use Rattle.std.specs.Prelude.{◌≡◌, ◌≢◌, MatchOption};
ghost use Rattle.script_text.specs.Faults.{head_text, IsFrame};
ghost use Rattle.script_text.specs.declared.step.Head.{Head as AHead};

use crate::verb::{Verb, verb_of};
use gdi_kinds::Call;

/// What a line of a script that counts does.
#[derive(Debug, Drop)]
pub(crate) enum Step {
    Section,
    Begin { whole: bool },
    Does(Call),
    Close { aborts: bool },
}

/// What the first word of such a line says of it.
#[derive(Clone, Copy, Debug, PartialEq, Eq)]
pub(crate) enum Head {
    Section,
    Begin { whole: bool },
    Does(Verb),
    Close { aborts: bool },
}

/// What a first word says.
pub(crate) fn head_of(word: &[u8]) -> Option<Head>
    ensures { MatchOption result ((h : AHead) → word.now ≢ head_text h) (λ h. word.now ≡ head_text h) }
{
    match frame_of(word) {
        Some(head) => Some(head),
        None => match verb_of(word) {
            Some(verb) => Some(Head::Does(verb)),
            None => None,
        },
    }
}

// What a first word says that is no call's.
fn frame_of(word: &[u8]) -> Option<Head>
    ensures { MatchOption result
        ((h : AHead) → IsFrame h → word.now ≢ head_text h)
        (λ h. word.now ≡ head_text h) }
{
    match word {
        b"section" => Some(Head::Section),
        b"txn" => Some(Head::Begin { whole: false }),
        b"all" => Some(Head::Begin { whole: true }),
        b"end" => Some(Head::Close { aborts: false }),
        b"abort" => Some(Head::Close { aborts: true }),
        _ => None,
    }
}
