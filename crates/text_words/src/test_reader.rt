ghost use Rattle.std.specs.Prelude.{◌≡◌, ◌≢◌, ◌∷◌, ◌↔◌, IsTrue, List, ℕ, codes, Some, MatchOption, MatchResult};
ghost use Rattle.text_words.specs.Spelling.{between, alternative_parts, HasAtoms};
ghost use Rattle.text_words.specs.Forms.{atoms, joint, then, a_name, an_op, a_value, HasForm, FirstWrong, AreSpelled, OrMemory, texts};
ghost use Rattle.text_words.specs.Awaited.{form_at, opener_text, IsAtomRead, AddsAtom};
ghost use Rattle.text_words.specs.declared.test_reader.Opener.{Opener as AnOpener};

use crate::fields::{Field, Fields};
use crate::value_reader::value_of;
use crate::word_fields::op_of;
use crate::wrong::Wrong;
use gdi_kinds::{Atom, AtomList, Name, Test};
use std::alloc::Global;

// A constraint that may be left out.
impl Fields for Option<Test> {
    ghost use Rattle.text_words.specs.Forms.{may_test};
    ghost use Rattle.text_words.specs.Spelling.{test_parts, HasAtoms};

    ghost form = { may_test };

    ghost parts = { λ test. test_parts test };

    ghost Fits = { λ test. HasAtoms test };

    fn has_form(words: &[&[u8]]) -> bool {
        match words {
            [] => true,
            [first, rest @ ..] => is_where(first) && are_atoms(rest),
        }
    }

    fn read(alloc: Global, words: &[&[u8]]) -> Result<Option<Test>, Wrong> {
        match words {
            [] => Ok(None),
            [_, rest @ ..] => Ok(Some(test_of(alloc, rest)?)),
        }
    }
}

fn is_where(word: &[u8]) -> bool
    ensures { IsTrue result ↔ (word.now ≡ codes "where") }
{
    matches!(word, b"where")
}

/// What a word of a constraint has to be.
#[derive(Clone, Copy, Debug, PartialEq, Eq)]
enum Awaited {
    /// The first word of an atom.
    Atom,
    Label,
    Prop,
    Op,
    Value,
    /// A word between two atoms, or none.
    Joint,
}

// Whether words are an atom and what may follow it.
fn are_atoms(words: &[&[u8]]) -> bool
    ensures { IsTrue result ↔ HasForm atoms (texts words.now) }
{
    let mut awaited = Awaited::Atom;
    for word in words {
        match next_of(awaited, word) {
            Some(next) => awaited = next,
            None => return false,
        }
    }
    matches!(awaited, Awaited::Joint)
}

// What is awaited behind a word.
fn next_of(awaited: Awaited, word: &[u8]) -> Option<Awaited>
    ensures { MatchOption result
        ((rest : List (List ℕ)) → ¬ HasForm (form_at awaited) (word.now ∷ rest))
        (λ next. (rest : List (List ℕ)) → HasForm (form_at awaited) (word.now ∷ rest) ↔ HasForm (form_at next) rest) }
{
    match awaited {
        Awaited::Atom => behind_opener(word),
        Awaited::Label if !word.is_empty() => Some(Awaited::Joint),
        Awaited::Prop if !word.is_empty() => Some(Awaited::Op),
        Awaited::Op if op_of(word).is_some() => Some(Awaited::Value),
        Awaited::Value if !word.is_empty() => Some(Awaited::Joint),
        Awaited::Joint if is_and(word) || is_or(word) => Some(Awaited::Atom),
        _ => None,
    }
}

// What is awaited behind the first word of an atom.
fn behind_opener(word: &[u8]) -> Option<Awaited>
    ensures { MatchOption result
        ((rest : List (List ℕ)) → ¬ HasForm atoms (word.now ∷ rest))
        (λ next. (rest : List (List ℕ)) → HasForm atoms (word.now ∷ rest) ↔ HasForm (form_at next) rest) }
{
    match opener_of(word) {
        Some(Opener::Prop) => Some(Awaited::Prop),
        Some(_) => Some(Awaited::Label),
        None => None,
    }
}

/// The first word of an atom.
#[derive(Clone, Copy, Debug, PartialEq, Eq)]
enum Opener {
    Has,
    Lacks,
    Prop,
}

fn opener_of(word: &[u8]) -> Option<Opener>
    ensures { MatchOption result ((o : AnOpener) → word.now ≢ opener_text o) (λ o. word.now ≡ opener_text o) }
{
    match word {
        b"has" => Some(Opener::Has),
        b"lacks" => Some(Opener::Lacks),
        b"prop" => Some(Opener::Prop),
        _ => None,
    }
}

fn is_and(word: &[u8]) -> bool
    ensures { IsTrue result ↔ (word.now ≡ codes "and") }
{
    matches!(word, b"and")
}

fn is_or(word: &[u8]) -> bool
    ensures { IsTrue result ↔ (word.now ≡ codes "or") }
{
    matches!(word, b"or")
}

// The constraint that words spell, from its first atom on.
fn test_of(alloc: Global, words: &[&[u8]]) -> Result<Test, Wrong>
    requires { HasForm atoms (texts words.now) }
    ensures { MatchResult result
        (λ test. AreSpelled (texts words.now) (between (codes "or") alternative_parts test) × HasAtoms (Some test))
        (OrMemory (FirstWrong atoms (texts words.now))) }
{
    let mut test = Test::new(alloc);
    let mut alternative = AtomList::new(alloc);
    let (atom, mut rest) = atom_of(alloc, words)?;
    alternative.push(atom)?;
    while let [joint, behind @ ..] = rest {
        let (atom, after) = atom_of(alloc, behind)?;
        add_atom(alloc, joint, atom, &mut test, &mut alternative)?;
        rest = after;
    }
    test.push(alternative)?;
    Ok(test)
}

// Adds an atom behind a word: behind an `or` it begins the next alternative.
fn add_atom(
    alloc: Global,
    joint: &[u8],
    atom: Atom,
    test: &mut Test,
    alternative: &mut AtomList,
) -> Result<(), Wrong>
    ensures { MatchResult result
        (λ _. AddsAtom joint.now atom test.old alternative.old test.new alternative.new)
        (λ told. told ≡ Wrong.NoMemory) }
{
    if !is_or(joint) {
        alternative.push(atom)?;
        return Ok(());
    }
    let mut next = AtomList::new(alloc);
    next.push(atom)?;
    let whole = std::mem::replace(alternative, next);
    test.push(whole)?;
    Ok(())
}

// The first atom that words spell, and the words behind it.
fn atom_of<'a>(alloc: Global, words: &'a [&'a [u8]]) -> Result<(Atom, &'a [&'a [u8]]), Wrong>
    requires { HasForm atoms (texts words.now) }
    ensures { MatchResult result (λ x. IsAtomRead (texts words.now) x.0 (texts x.1.now)) (OrMemory (FirstWrong atoms (texts words.now))) }
{
    match words {
        [first, rest @ ..] => match opener_of(first) {
            Some(Opener::Prop) => prop_of(alloc, rest),
            Some(opener) => label_of(alloc, opener, rest),
            None => unreachable!(),
        },
        [] => unreachable!(),
    }
}

// The test of a label that words spell behind its first word, and the words behind it.
fn label_of<'a>(
    alloc: Global,
    opener: Opener,
    words: &'a [&'a [u8]],
) -> Result<(Atom, &'a [&'a [u8]]), Wrong>
    requires form { HasForm (then a_name joint) (texts words.now) }
    requires label { opener ≢ Opener.Prop }
    ensures { MatchResult result (λ x. IsAtomRead (opener_text opener ∷ texts words.now) x.0 (texts x.1.now))
        (OrMemory (FirstWrong (then a_name joint) (texts words.now))) }
{
    match words {
        [name, rest @ ..] => {
            let label = Name::read(alloc, name)?;
            match opener {
                Opener::Has => Ok((Atom::Has(label), rest)),
                Opener::Lacks => Ok((Atom::Lacks(label), rest)),
                Opener::Prop => unreachable!(),
            }
        }
        [] => unreachable!(),
    }
}

// The comparison of a property that words spell behind its first word, and the words behind it.
fn prop_of<'a>(alloc: Global, words: &'a [&'a [u8]]) -> Result<(Atom, &'a [&'a [u8]]), Wrong>
    requires { HasForm (then a_name (then an_op (then a_value joint))) (texts words.now) }
    ensures { MatchResult result (λ x. IsAtomRead (codes "prop" ∷ texts words.now) x.0 (texts x.1.now))
        (OrMemory (FirstWrong (then a_name (then an_op (then a_value joint))) (texts words.now))) }
{
    match words {
        [name, op, value, rest @ ..] => {
            let prop = Name::read(alloc, name)?;
            let value = value_of(alloc, value)?;
            match op_of(op) {
                Some(op) => Ok((Atom::Prop(prop, op, value), rest)),
                None => unreachable!(),
            }
        }
        _ => unreachable!(),
    }
}
