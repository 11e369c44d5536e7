ghost use Rattle.std.specs.Prelude.{◌≡◌, ◌≢◌, ◌∷◌, [], ℕ, ◌^◌, ◌<◌, codes, IfOk, MatchOption, IsTrue, ◌↔◌};
ghost use Rattle.std.specs.Fmt.{decimal};
ghost use Rattle.text_words.specs.Forms.{texts};
ghost use Rattle.outcome_text.specs.declared.said.Ending.{Ending as AnEnding};
ghost use Rattle.outcome_text.specs.declared.said_reader.EndingWord.{EndingWord as AnEndingWord};
ghost use Rattle.outcome_text.specs.Runs.{IsNumber};
ghost use Rattle.outcome_text.specs.Reading.{SaysOrNone, LineSays, IsEnding, ending_words, text_of_ending};

use crate::item_readers::two_in;
use crate::line_words::cut;
use crate::reply_reader::{one_number, reply_of, two_numbers};
use crate::said::{Ending, Head, Said};
use gdi_kinds::NoMemory;
use std::alloc::Global;

/// What a line says, if it is a line of an output. `words` is room for the line's words.
pub(crate) fn said_by<'a>(
    alloc: Global,
    line: &'a [u8],
    words: &mut Vec<&'a [u8]>,
) -> Result<Option<Said>, NoMemory>
    ensures { IfOk result (LineSays line.now) }
{
    if !cut(line, words)? {
        return Ok(None);
    }
    let said = said_with(alloc, words.as_slice())?;
    Ok(said)
}

// What the words of a line say.
fn said_with(alloc: Global, words: &[&[u8]]) -> Result<Option<Said>, NoMemory>
    ensures { IfOk result (SaysOrNone (texts words.now)) }
{
    let [first, rest @ ..] = words else {
        return Ok(None);
    };
    if first.is_empty() {
        return reply_said(alloc, rest);
    }
    if is_writes(first) {
        return Ok(writes_said(rest));
    }
    Ok(head_said(first, rest))
}

fn is_writes(word: &[u8]) -> bool
    ensures { IsTrue result ↔ (word.now ≡ codes "writes") }
{
    matches!(word, b"writes")
}

// What words say behind an empty first word.
fn reply_said(alloc: Global, words: &[&[u8]]) -> Result<Option<Said>, NoMemory>
    ensures { IfOk result (SaysOrNone ([] ∷ texts words.now)) }
{
    let [word, items @ ..] = words else {
        return Ok(None);
    };
    match reply_of(alloc, word, items)? {
        Some(reply) => Ok(Some(Said::Reply(reply))),
        None => Ok(None),
    }
}

// What words say behind the word of the last line.
fn writes_said(words: &[&[u8]]) -> Option<Said>
    ensures { SaysOrNone (codes "writes" ∷ texts words.now) result }
{
    let writes = one_number(words)?;
    Some(Said::Writes(writes))
}

// What a word says, and the words behind it, where it is neither.
fn head_said(place: &[u8], ending: &[&[u8]]) -> Option<Said>
    requires not_reply { place.now ≢ [] }
    requires not_writes { place.now ≢ codes "writes" }
    ensures { SaysOrNone (place.now ∷ texts ending.now) result }
{
    let (section, txn) = two_in(b'.', place)?;
    let ending = ending_with(ending)?;
    Some(Said::Head(Head {
        section,
        txn,
        ending,
    }))
}

// How a transaction ended, by the words behind its place.
fn ending_with(words: &[&[u8]]) -> Option<Ending>
    ensures { MatchOption result
        ((e : AnEnding) → IsEnding e → texts words.now ≢ ending_words e)
        (λ e. (texts words.now ≡ ending_words e) × IsEnding e) }
{
    let [word, rest @ ..] = words else {
        return None;
    };
    match ending_word(word)? {
        EndingWord::Wrote => match one_number(rest) {
            Some(k) => Some(Ending::Wrote(k)),
            None => None,
        },
        EndingWord::Read => match one_number(rest) {
            Some(place) => Some(Ending::Read(place)),
            None => None,
        },
        EndingWord::Aborted => {
            if rest.is_empty() {
                Some(Ending::Aborted)
            } else {
                None
            }
        }
        EndingWord::Full => full_with(rest),
    }
}

// The word behind the place of an outcome.
#[derive(Clone, Copy, Debug, PartialEq, Eq)]
enum EndingWord {
    Wrote,
    Read,
    Aborted,
    Full,
}

fn ending_word(word: &[u8]) -> Option<EndingWord>
    ensures { MatchOption result ((w : AnEndingWord) → word.now ≢ text_of_ending w) (λ w. word.now ≡ text_of_ending w) }
{
    match word {
        b"w" => Some(EndingWord::Wrote),
        b"r" => Some(EndingWord::Read),
        b"aborted" => Some(EndingWord::Aborted),
        b"full" => Some(EndingWord::Full),
        _ => None,
    }
}

// That a rank had too few blocks, by the words behind `full`.
fn full_with(words: &[&[u8]]) -> Option<Ending>
    ensures { MatchOption result
        ((rank place : ℕ) → rank < 2 ^ 16 → IsNumber place → texts words.now ≢ decimal rank ∷ decimal place ∷ [])
        (λ e. (codes "full" ∷ texts words.now ≡ ending_words e) × IsEnding e) }
{
    let (rank, place) = two_numbers(words)?;
    match u16::try_from(rank) {
        Ok(rank) => Some(Ending::Full { rank, place }),
        Err(_) => None,
    }
}
