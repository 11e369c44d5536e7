ghost use Rattle.std.specs.Prelude.{◌≡◌, ◌≢◌, ◌↔◌, IsTrue, Bool, ◌++◌, ◌∷◌, [], ℕ, ℤ, List, MatchOption, MatchResult, ◌<◌, ◌^◌, suc, IfOk, FitsSigned};
ghost use Rattle.std.specs.Int.{w64};
ghost use Rattle.std.specs.Fmt.{decimal, signed_decimal};
ghost use Rattle.std.specs.List.{flat_map};
ghost use Rattle.gdi_kinds.specs.declared.value.Value.TheVariants as value;
ghost use Rattle.text_words.specs.Forms.{a_value, IsRead, IsMisspelled, OrMemory};
ghost use Rattle.text_words.specs.Spelling.{constant, quoted_byte, value_text};
ghost use Rattle.gdi_kinds.specs.Texts.{IsText};

use crate::number::number_of;
use crate::wrong::Wrong;
use gdi_kinds::{NoMemory, Text, Unfit, Value};
use std::alloc::Global;

// The largest integer.
const LARGEST: u64 = 0x7fff_ffff_ffff_ffff;

/// The value that a word spells.
pub fn value_of(alloc: Global, word: &[u8]) -> Result<Value, Wrong>
    ensures { MatchResult result (λ v. IsRead a_value word.now (constant v)) (OrMemory (IsMisspelled a_value word.now)) }
{
    if let Some(b) = bool_of(word) {
        return Ok(Value::Bool(b));
    }
    if let Some(quoted) = after_byte(word, b'"') {
        return match text_of(alloc, quoted)? {
            Some(text) => Ok(Value::Text(text)),
            None => Err(Wrong::Value),
        };
    }
    match int_of(word) {
        Some(int) => Ok(Value::Int(int)),
        None => Err(Wrong::Value),
    }
}

/// The truth value that a word is.
pub fn bool_of(word: &[u8]) -> Option<bool>
    ensures { MatchOption result ((b : Bool) → word.now ≢ value_text (value.Bool b)) (λ b. word.now ≡ value_text (value.Bool b)) }
{
    match word {
        b"true" => Some(true),
        b"false" => Some(false),
        _ => None,
    }
}

/// The integer that a word spells: decimal, behind a `-` where it is negative, without a leading zero, in 64 bits.
pub fn int_of(word: &[u8]) -> Option<i64>
    ensures { MatchOption result ((n : ℤ) → FitsSigned w64 n → word.now ≢ signed_decimal n)
        (λ n. (word.now ≡ signed_decimal n) × FitsSigned w64 n) }
{
    match after_byte(word, b'-') {
        Some(digits) => negative_of(digits),
        None => positive_of(word),
    }
}

// What follows a byte that a word begins with.
pub fn after_byte(word: &[u8], byte: u8) -> Option<&[u8]>
    ensures { MatchOption result ((rest : List ℕ) → word.now ≢ byte ∷ rest) (λ rest. word.now ≡ byte ∷ rest.now) }
{
    match word {
        [first, rest @ ..] if *first == byte => Some(rest),
        _ => None,
    }
}

// The integer from 0 on that digits spell.
fn positive_of(digits: &[u8]) -> Option<i64>
    ensures { MatchOption result ((m : ℕ) → m < 2 ^ 63 → digits.now ≢ decimal m) (λ n. (digits.now ≡ signed_decimal n) × FitsSigned w64 n) }
{
    let size = number_of(digits)?;
    if size > LARGEST {
        return None;
    }
    Some(size as i64)
}

// The integer below 0 that digits behind a `-` spell.
fn negative_of(digits: &[u8]) -> Option<i64>
    ensures { MatchOption result ((m : ℕ) → m < 2 ^ 63 → digits.now ≢ decimal (suc m)) (λ n. (45 ∷ digits.now ≡ signed_decimal n) × FitsSigned w64 n) }
{
    let size = number_of(digits)?;
    if size == 0 {
        return None;
    }
    if size - 1 > LARGEST {
        return None;
    }
    Some(-1 - (size - 1) as i64)
}

// The text that is quoted by what follows a quote.
fn text_of(alloc: Global, quoted: &[u8]) -> Result<Option<Text>, NoMemory>
    ensures { IfOk result (λ read. MatchOption read
        ((text : List ℕ) → IsText text → quoted.now ≢ flat_map quoted_byte text ++ 34 ∷ [])
        (λ text. (quoted.now ≡ flat_map quoted_byte text ++ 34 ∷ []) × IsText text)) }
{
    let Some(bytes) = unquoted(alloc, quoted)? else {
        return Ok(None);
    };
    match Text::of(alloc, bytes.as_slice()) {
        Ok(text) => Ok(Some(text)),
        Err(Unfit::NotText) => Ok(None),
        Err(Unfit::NoMemory) => Err(NoMemory),
    }
}

// The bytes that are quoted by what follows a quote.
fn unquoted(alloc: Global, quoted: &[u8]) -> Result<Option<Vec<u8>>, NoMemory>
    ensures { IfOk result (λ read. MatchOption read
        ((text : List ℕ) → quoted.now ≢ flat_map quoted_byte text ++ 34 ∷ [])
        (λ text. quoted.now ≡ flat_map quoted_byte text.items ++ 34 ∷ [])) }
{
    let mut bytes = Vec::new(alloc);
    let mut rest = quoted;
    while !is_closing(rest) {
        let Some((byte, after)) = first_quoted(rest) else {
            return Ok(None);
        };
        bytes.push(byte)?;
        rest = after;
    }
    Ok(Some(bytes))
}

// Whether what is left is the closing quote.
fn is_closing(rest: &[u8]) -> bool
    ensures { IsTrue result ↔ (rest.now ≡ 34 ∷ []) }
{
    matches!(rest, [b'"'])
}

// The first byte of a text that is quoted, and what follows it.
pub fn first_quoted(quoted: &[u8]) -> Option<(u8, &[u8])>
    ensures { MatchOption result
        ((byte : ℕ) (rest : List ℕ) → quoted.now ≢ quoted_byte byte ++ rest)
        (λ first. quoted.now ≡ quoted_byte first.0 ++ first.1.now) }
{
    match quoted {
        [b'\\', byte, rest @ ..] if matches!(*byte, b'"' | b'\\') => Some((*byte, rest)),
        [] | [b'"' | b'\\', ..] => None,
        [byte, rest @ ..] => Some((*byte, rest)),
    }
}
