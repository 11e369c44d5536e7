ghost use Rattle.std.specs.Prelude.{◌≡◌, ◌≢◌, ℕ, ◌++◌, ◌∷◌, IfOk, MatchOption, Bool, true, false};
ghost use Rattle.std.specs.Fmt.{decimal};
ghost use Rattle.gdi_kinds.specs.declared.value.Value.{Value as AValue};
ghost use Rattle.gdi_kinds.specs.declared.prop_line.PropLine.{PropLine as APropLine};
ghost use Rattle.gdi_kinds.specs.declared.pair.Pair.{Pair as APair};
ghost use Rattle.gdi_kinds.specs.declared.edge_line.EdgeLine.{EdgeLine as AnEdgeLine};
ghost use Rattle.text_words.specs.Spelling.{IsValue, value_text};
ghost use Rattle.outcome_text.specs.Outputs.{prop_text, pair_text, edge_text, way_text};
ghost use Rattle.outcome_text.specs.Reading.{IsNoDigit};
ghost use Rattle.outcome_text.specs.Runs.{IsNumber, IsPropLine, IsPair, IsEdgeLine};

use crate::line_words::split;
use gdi_kinds::{EdgeLine, Name, NoMemory, Pair, PropLine, Value};
use std::alloc::Global;
use text_words::{Wrong, number_of, value_of};

/// The value that a word is.
pub(crate) fn value_in(alloc: Global, word: &[u8]) -> Result<Option<Value>, NoMemory>
    ensures { IfOk result (λ read. MatchOption read
        ((v : AValue) → IsValue v → word.now ≢ value_text v)
        (λ v. (word.now ≡ value_text v) × IsValue v)) }
{
    match value_of(alloc, word) {
        Ok(value) => Ok(Some(value)),
        Err(Wrong::NoMemory) => Err(NoMemory),
        Err(_) => Ok(None),
    }
}

/// The property's line that a word is.
pub(crate) fn prop_in(alloc: Global, word: &[u8]) -> Result<Option<PropLine>, NoMemory>
    ensures { IfOk result (λ read. MatchOption read
        ((p : APropLine) → IsPropLine p → word.now ≢ prop_text p)
        (λ p. (word.now ≡ prop_text p) × IsPropLine p)) }
{
    let Some((name, value)) = split(b'=', word) else {
        return Ok(None);
    };
    let Some(name) = Name::of(name) else {
        return Ok(None);
    };
    match value_in(alloc, value)? {
        Some(value) => Ok(Some(PropLine { name, value })),
        None => Ok(None),
    }
}

/// The pair that a word is.
pub(crate) fn pair_in(word: &[u8]) -> Option<Pair>
    ensures { MatchOption result
        ((p : APair) → IsPair p → word.now ≢ pair_text p)
        (λ p. (word.now ≡ pair_text p) × IsPair p) }
{
    let (id, number) = two_in(b':', word)?;
    Some(Pair { id, number })
}

/// The two numbers that a word is, with a byte between them that is no digit.
pub(crate) fn two_in(mark: u8, word: &[u8]) -> Option<(u64, u64)>
    requires { IsNoDigit mark }
    ensures { MatchOption result
        ((m n : ℕ) → IsNumber m → IsNumber n → word.now ≢ decimal m ++ mark ∷ decimal n)
        (λ x. (word.now ≡ decimal x.0 ++ mark ∷ decimal x.1) × IsNumber x.0 × IsNumber x.1) }
{
    let (first, second) = split(mark, word)?;
    Some((number_of(first)?, number_of(second)?))
}

/// The item of an edge that a word is.
pub(crate) fn edge_in(word: &[u8]) -> Option<EdgeLine>
    ensures { MatchOption result
        ((e : AnEdgeLine) → IsEdgeLine e → word.now ≢ edge_text e)
        (λ e. (word.now ≡ edge_text e) × IsEdgeLine e) }
{
    let (way, numbers) = split(b':', word)?;
    let (source, rest) = split(b':', numbers)?;
    let (undirected, inward) = way_in(way)?;
    let source = number_of(source)?;
    let (ordinal, target) = two_in(b':', rest)?;
    Some(EdgeLine {
        inward,
        undirected,
        source,
        ordinal,
        target,
    })
}

// Whether an edge is undirected, and whether it is inward.
fn way_in(word: &[u8]) -> Option<(bool, bool)>
    ensures { MatchOption result
        ((undirected inward : Bool) → word.now ≢ way_text undirected inward)
        (λ x. (word.now ≡ way_text x.0 x.1) × (x.0 ≡ true → x.1 ≡ false)) }
{
    match word {
        b"out" => Some((false, false)),
        b"in" => Some((false, true)),
        b"und" => Some((true, false)),
        _ => None,
    }
}
