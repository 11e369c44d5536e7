ghost use Rattle.std.specs.Prelude.{◌≡◌, ◌≢◌, ◌++◌, ◌∷◌, [], ℕ, List, Option, MatchOption, IfOk};
ghost use Rattle.std.specs.List.{flat_map};
ghost use Rattle.std.specs.Option.{option_copied};
ghost use Rattle.text_words.specs.Spelling.{quoted_byte};
ghost use Rattle.text_words.specs.Forms.{texts};
ghost use Rattle.text_words.specs.Words.{IsCut, IsCutOrNone, HasFirst, IsOpening, IsClosed, IsBehind};

use crate::lines::position_of;
use crate::value_reader::{after_byte, first_quoted};
use gdi_kinds::NoMemory;

/// Puts the words of a line into `words`, in place of what stands there. False: the line has no words, since a quoted
/// word is ill spelled, and what then stands in `words` is of no use.
pub fn cut<'a>(line: &'a [u8], words: &mut Vec<&'a [u8]>) -> Result<bool, NoMemory>
    ensures { IfOk result (λ found. IsCutOrNone found line.now (texts words.new.items)) }
{
    words.clear();
    let mut rest = line;
    'words: loop {
        let Some((word, behind)) = first_word(rest) else {
            return Ok(false);
        };
        words.push(word)?;
        match behind {
            Some(next) => rest = next,
            None => return Ok(true),
        }
    }
}

// The first word of a line, and what follows the space behind it, where one does.
fn first_word(line: &[u8]) -> Option<(&[u8], Option<&[u8]>)>
    ensures { MatchOption result ((words : List (List ℕ)) → ¬ IsCut line.now words) (λ x. HasFirst line.now x.0.now (option_copied x.1)) }
{
    match after_byte(line, b'"') {
        Some(quoted) => quoted_word(line, quoted),
        None => Some(plain_word(line)),
    }
}

// The same of a line that doesn't begin with a quote.
fn plain_word(line: &[u8]) -> (&[u8], Option<&[u8]>)
    requires { (rest : List ℕ) → line.now ≢ 34 ∷ rest }
    ensures { HasFirst line.now result.0.now (option_copied result.1) }
{
    opening_of(line)
}

/// The bytes of a line up to its first space, and what follows that, where it has one.
pub fn opening_of(line: &[u8]) -> (&[u8], Option<&[u8]>)
    ensures { IsOpening line.now result.0.now (option_copied result.1) }
{
    match position_of(b' ', line) {
        Some(end) => (&line[..end], Some(&line[end + 1..])),
        None => (line, None),
    }
}

// The same of a line that is a quote and what follows it.
fn quoted_word<'a>(line: &'a [u8], quoted: &'a [u8]) -> Option<(&'a [u8], Option<&'a [u8]>)>
    requires { line.now ≡ 34 ∷ quoted.now }
    ensures { MatchOption result ((words : List (List ℕ)) → ¬ IsCut line.now words) (λ x. HasFirst line.now x.0.now (option_copied x.1)) }
{
    let rest = after_closing(quoted)?;
    let behind = behind_word(rest)?;
    Some((&line[..line.len() - rest.len()], behind))
}

/// What follows the closing quote of a text that is quoted, from behind its first quote. There is nothing where no quote
/// closes it, or another backslash stands in it than in front of a quote or a backslash.
pub fn after_closing(quoted: &[u8]) -> Option<&[u8]>
    ensures { MatchOption result
        ((bytes rest : List ℕ) → quoted.now ≢ flat_map quoted_byte bytes ++ 34 ∷ rest)
        (λ rest. IsClosed quoted.now rest.now) }
{
    let mut rest = quoted;
    'bytes: loop {
        if let Some(behind) = after_byte(rest, b'"') {
            return Some(behind);
        }
        match first_quoted(rest) {
            Some((_, after)) => rest = after,
            None => return None,
        }
    }
}

/// What follows the space behind a word, where one does. Nothing else follows a word.
pub fn behind_word(rest: &[u8]) -> Option<Option<&[u8]>>
    ensures { MatchOption result ((behind : Option (List ℕ)) → ¬ IsBehind rest.now behind) (λ behind. IsBehind rest.now (option_copied behind)) }
{
    match rest {
        [] => Some(None),
        [b' ', next @ ..] => Some(Some(next)),
        _ => None,
    }
}
