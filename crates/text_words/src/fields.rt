ghost use Rattle.std.specs.Prelude.{◌≡◌, ◌↔◌, IsTrue, codes, MatchResult};
ghost use Rattle.text_words.specs.Forms.{IsWrong, AreSpelled, OrMemory, texts};

use crate::wrong::Wrong;
use gdi_kinds::Name;
use std::alloc::Global;

/// What one word of a call's line stands for.
pub trait Field: Sized {
    ghost use Rattle.std.specs.Prelude.{◌↔◌, IsTrue, MatchResult};
    ghost use Rattle.text_words.specs.Forms.{Sort, MayStand, IsMisspelled, IsRead, OrMemory};
    ghost use Rattle.text_words.specs.Spelling.{Part};

    ghost sort: { Sort };

    ghost part: { Self → Part };

    /// Whether the word may stand here, spelled well or not.
    fn may_stand(word: &[u8]) -> bool
        ensures { IsTrue result ↔ MayStand sort word.now };

    /// What the word spells.
    fn read(alloc: Global, word: &[u8]) -> Result<Self, Wrong>
        requires { MayStand sort word.now }
        ensures { MatchResult result (λ x. IsRead sort word.now (part x)) (OrMemory (IsMisspelled sort word.now)) };
}

/// What the words behind a call's word stand for: nothing, a field and what follows it, or what may be left out.
pub trait Fields: Sized {
    ghost use Rattle.std.specs.Prelude.{◌↔◌, IsTrue, MatchResult, List};
    ghost use Rattle.text_words.specs.Forms.{Form, HasForm, FirstWrong, AreSpelled, OrMemory, texts};
    ghost use Rattle.text_words.specs.Spelling.{Part};

    ghost form: { Form };

    ghost parts: { Self → List Part };

    /// What a constraint keeps beside its parts.
    ghost Fits: { Self → Type 0 };

    /// Whether the words are of the form, spelled well or not.
    fn has_form(words: &[&[u8]]) -> bool
        ensures { IsTrue result ↔ HasForm form (texts words.now) };

    /// What the words spell.
    fn read(alloc: Global, words: &[&[u8]]) -> Result<Self, Wrong>
        requires { HasForm form (texts words.now) }
        ensures { MatchResult result (λ x. AreSpelled (texts words.now) (parts x) × Fits x) (OrMemory (FirstWrong form (texts words.now))) };
}

/// What the words behind a call's word spell.
pub fn read_fields<F: Fields>(alloc: Global, words: &[&[u8]]) -> Result<F, Wrong>
    ensures { MatchResult result (λ x. AreSpelled (texts words.now) (F.parts x) × F.Fits x) (OrMemory (IsWrong F.form (texts words.now))) }
{
    if !F::has_form(words) {
        return Err(Wrong::Form);
    }
    F::read(alloc, words)
}

impl Fields for () {
    ghost use Rattle.std.specs.Prelude.{[]};
    ghost use Rattle.text_words.specs.Forms.{ends};

    ghost form = { ends };

    ghost parts = { λ _. [] };

    ghost Fits = { λ _. Unit {0} };

    fn has_form(words: &[&[u8]]) -> bool {
        words.is_empty()
    }

    fn read(_alloc: Global, _words: &[&[u8]]) -> Result<(), Wrong> {
        Ok(())
    }
}

impl<A: Field + Drop, R: Fields + Drop> Fields for (A, R) {
    ghost use Rattle.std.specs.Prelude.{◌∷◌};
    ghost use Rattle.text_words.specs.Forms.{then};

    ghost form = { then A.sort R.form };

    ghost parts = { λ x. A.part x.0 ∷ R.parts x.1 };

    ghost Fits = { λ x. R.Fits x.1 };

    fn has_form(words: &[&[u8]]) -> bool {
        match words {
            [word, rest @ ..] => A::may_stand(word) && R::has_form(rest),
            [] => false,
        }
    }

    fn read(alloc: Global, words: &[&[u8]]) -> Result<(A, R), Wrong> {
        match words {
            [word, rest @ ..] => {
                let first = A::read(alloc, word)?;
                Ok((first, R::read(alloc, rest)?))
            }
            [] => Err(Wrong::Form),
        }
    }
}

// The mark of a type that may have many values.
impl Fields for bool {
    ghost use Rattle.text_words.specs.Forms.{may_mark};
    ghost use Rattle.text_words.specs.Spelling.{many_parts};

    ghost form = { may_mark };

    ghost parts = { λ many. many_parts many };

    ghost Fits = { λ _. Unit {0} };

    fn has_form(words: &[&[u8]]) -> bool {
        match words {
            [] => true,
            [word] => is_many(word),
            _ => false,
        }
    }

    fn read(_alloc: Global, words: &[&[u8]]) -> Result<bool, Wrong> {
        Ok(!words.is_empty())
    }
}

fn is_many(word: &[u8]) -> bool
    ensures { IsTrue result ↔ (word.now ≡ codes "many") }
{
    matches!(word, b"many")
}

// The label of an edge.
impl Fields for Option<Name> {
    ghost use Rattle.text_words.specs.Forms.{may_label};
    ghost use Rattle.text_words.specs.Spelling.{label_parts};

    ghost form = { may_label };

    ghost parts = { λ label. label_parts label };

    ghost Fits = { λ _. Unit {0} };

    fn has_form(words: &[&[u8]]) -> bool {
        match words {
            [] => true,
            [word] => !word.is_empty(),
            _ => false,
        }
    }

    fn read(_alloc: Global, words: &[&[u8]]) -> Result<Option<Name>, Wrong> {
        let [word, ..] = words else {
            return Ok(None);
        };
        match Name::of(word) {
            Some(label) => Ok(Some(label)),
            None => Err(Wrong::Name),
        }
    }
}
