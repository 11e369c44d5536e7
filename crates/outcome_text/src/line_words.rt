ghost use Rattle.std.specs.Prelude.{◌≡◌, ◌≢◌, ◌<◌, ◌++◌, ◌∷◌, [], ℕ, List, Option, Some, MatchOption, IfOk, length, position};
ghost use Rattle.std.specs.Option.{option_copied};
ghost use Rattle.text_words.specs.Forms.{texts};
ghost use Rattle.outcome_text.specs.WrongLine.{HasNoEnd, ended};
ghost use Rattle.outcome_text.specs.Reading.{HasFirst, HasNo, IsCut, IsCutOrNone, OpensQuote, is_mark};

use gdi_kinds::NoMemory;
use text_words::{after_closing, behind_word, position_of};

/// The first line of a text that has an LF, without it, and what follows it.
pub(crate) fn whole_line(text: &[u8]) -> Option<(&[u8], &[u8])>
    ensures { MatchOption result (HasNoEnd text.now)
        (λ x. (text.now ≡ ended x.0.now ++ x.1.now) × HasNoEnd x.0.now × (length x.1.now < length text.now)) }
{
    let (line, rest) = split(b'\n', text)?;
    Some((line, rest))
}

/// The bytes up to a byte, and what follows it.
pub(crate) fn split(byte: u8, text: &[u8]) -> Option<(&[u8], &[u8])>
    ensures { MatchOption result (HasNo byte text.now) (λ x. (text.now ≡ x.0.now ++ byte ∷ x.1.now) × HasNo byte x.0.now) }
{
    let end = position_of(byte, text)?;
    Some((&text[..end], &text[end + 1..]))
}

/// Puts the words of a line into `words`, in place of what stands there. False: the line has no words, since a quoted
/// text is ill spelled, and what then stands in `words` is of no use.
pub(crate) fn cut<'a>(line: &'a [u8], words: &mut Vec<&'a [u8]>) -> Result<bool, NoMemory>
    ensures { IfOk result (λ found. IsCutOrNone found line.now (texts words.new.items)) }
{
    words.clear();
    let mut rest = line;
    'words: loop {
        let Some((word, behind)) = first_word(rest) else {
            return Ok(false);
        };
        words.push(word)?;
        match behind {
            Some(next) => rest = next,
            None => return Ok(true),
        }
    }
}

// The first word of a line, and what follows the space behind it, where one does.
fn first_word(line: &[u8]) -> Option<(&[u8], Option<&[u8]>)>
    ensures { MatchOption result ((words : List (List ℕ)) → ¬ IsCut line.now words) (λ x. HasFirst line.now x.0.now (option_copied x.1)) }
{
    match mark_in(line) {
        None => Some((line, None)),
        Some(end) => word_at(line, end),
    }
}

// Where the first space or quote stands.
fn mark_in(line: &[u8]) -> Option<usize>
    ensures { result ≡ position is_mark line.now }
{
    line.iter().position(|b| *b == b' ' || *b == b'"')
}

// The first word of a line, by where its first space or quote stands.
fn word_at(line: &[u8], end: usize) -> Option<(&[u8], Option<&[u8]>)>
    requires at { position is_mark line.now ≡ Some end }
    requires within { end < length line.now }
    ensures { MatchOption result ((words : List (List ℕ)) → ¬ IsCut line.now words) (λ x. HasFirst line.now x.0.now (option_copied x.1)) }
{
    if line[end] == b' ' {
        Some((&line[..end], Some(&line[end + 1..])))
    } else {
        quoted_word(line, &line[end + 1..])
    }
}

// The first word of a line that has a quote in front of a space, and behind that quote this.
fn quoted_word<'a>(line: &'a [u8], quoted: &'a [u8]) -> Option<(&'a [u8], Option<&'a [u8]>)>
    requires { OpensQuote line.now quoted.now }
    ensures { MatchOption result ((words : List (List ℕ)) → ¬ IsCut line.now words) (λ x. HasFirst line.now x.0.now (option_copied x.1)) }
{
    let rest = after_closing(quoted)?;
    let behind = behind_word(rest)?;
    Some((&line[..line.len() - rest.len()], behind))
}
