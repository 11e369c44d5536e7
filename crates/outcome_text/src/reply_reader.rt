ghost use Rattle.std.specs.Prelude.{◌≡◌, ◌≢◌, ◌∷◌, [], ℕ, true, IfOk, MatchOption};
ghost use Rattle.std.specs.Fmt.{decimal};
ghost use Rattle.gdi_kinds.specs.declared.value.Value.{Value as AValue};
ghost use Rattle.text_words.specs.Forms.{texts};
ghost use Rattle.text_words.specs.Spelling.{IsValue, value_text};
ghost use Rattle.outcome_text.specs.Runs.{IsNumber};
ghost use Rattle.outcome_text.specs.Reading.{ReadsReply, text_of_word, is_list_word, is_plain_word};

use crate::item_readers::value_in;
use crate::items::read_items;
use crate::reply_word::{ReplyWord, reply_word_of};
use gdi_kinds::{NoMemory, Reply, Value};
use std::alloc::Global;
use text_words::number_of;

/// The reply that a word and the items behind it spell.
pub(crate) fn reply_of(
    alloc: Global,
    word: &[u8],
    items: &[&[u8]],
) -> Result<Option<Reply>, NoMemory>
    ensures { IfOk result (ReadsReply word.now (texts items.now)) }
{
    match reply_word_of(word) {
        Some(found) => {
            let read = reply_with(alloc, found, items)?;
            Ok(read)
        }
        None => Ok(None),
    }
}

// The reply of a word that the items behind it spell.
fn reply_with(alloc: Global, word: ReplyWord, items: &[&[u8]]) -> Result<Option<Reply>, NoMemory>
    ensures { IfOk result (ReadsReply (text_of_word word) (texts items.now)) }
{
    match word {
        ReplyWord::NoVertex => match one_number(items) {
            Some(id) => Ok(Some(Reply::NoVertex(id))),
            None => Ok(None),
        },
        ReplyWord::Count => match one_number(items) {
            Some(count) => Ok(Some(Reply::Count(count))),
            None => Ok(None),
        },
        ReplyWord::EdgeIs => match two_numbers(items) {
            Some((source, ordinal)) => Ok(Some(Reply::EdgeIs(source, ordinal))),
            None => Ok(None),
        },
        ReplyWord::Value => match one_value(alloc, items)? {
            Some(value) => Ok(Some(Reply::Value(value))),
            None => Ok(None),
        },
        ReplyWord::Labels
        | ReplyWord::Props
        | ReplyWord::Values
        | ReplyWord::Edges
        | ReplyWord::Ids
        | ReplyWord::Levels
        | ReplyWord::Parts => list_reply(alloc, word, items),
        _ => Ok(plain_reply(word, items)),
    }
}

// The same of a word that lists items.
fn list_reply(alloc: Global, word: ReplyWord, items: &[&[u8]]) -> Result<Option<Reply>, NoMemory>
    requires { is_list_word word ≡ true }
    ensures { IfOk result (ReadsReply (text_of_word word) (texts items.now)) }
{
    match word {
        ReplyWord::Labels => match read_items(alloc, items)? {
            Some(names) => Ok(Some(Reply::Labels(names))),
            None => Ok(None),
        },
        ReplyWord::Props => match read_items(alloc, items)? {
            Some(props) => Ok(Some(Reply::Props(props))),
            None => Ok(None),
        },
        ReplyWord::Values => match read_items(alloc, items)? {
            Some(values) => Ok(Some(Reply::Values(values))),
            None => Ok(None),
        },
        ReplyWord::Edges => match read_items(alloc, items)? {
            Some(edges) => Ok(Some(Reply::Edges(edges))),
            None => Ok(None),
        },
        ReplyWord::Ids => match read_items(alloc, items)? {
            Some(ids) => Ok(Some(Reply::Ids(ids))),
            None => Ok(None),
        },
        ReplyWord::Levels => match read_items(alloc, items)? {
            Some(pairs) => Ok(Some(Reply::Levels(pairs))),
            None => Ok(None),
        },
        ReplyWord::Parts => match read_items(alloc, items)? {
            Some(pairs) => Ok(Some(Reply::Parts(pairs))),
            None => Ok(None),
        },
        _ => unreachable!(),
    }
}

// The same of a word behind which nothing stands.
fn plain_reply(word: ReplyWord, items: &[&[u8]]) -> Option<Reply>
    requires { is_plain_word word ≡ true }
    ensures { ReadsReply (text_of_word word) (texts items.now) result }
{
    if !items.is_empty() {
        return None;
    }
    match word {
        ReplyWord::Done => Some(Reply::Done),
        ReplyWord::Yes => Some(Reply::Yes),
        ReplyWord::No => Some(Reply::No),
        ReplyWord::Exists => Some(Reply::Exists),
        ReplyWord::NoEdge => Some(Reply::NoEdge),
        ReplyWord::NoLabel => Some(Reply::NoLabel),
        ReplyWord::NoType => Some(Reply::NoType),
        ReplyWord::NoProp => Some(Reply::NoProp),
        ReplyWord::WrongKind => Some(Reply::WrongKind),
        ReplyWord::NotMany => Some(Reply::NotMany),
        ReplyWord::HasLabel => Some(Reply::HasLabel),
        ReplyWord::LacksLabel => Some(Reply::LacksLabel),
        ReplyWord::TooLarge => Some(Reply::TooLarge),
        _ => unreachable!(),
    }
}

/// The number that a word is, where it stands alone.
pub(crate) fn one_number(words: &[&[u8]]) -> Option<u64>
    ensures { MatchOption result
        ((n : ℕ) → IsNumber n → texts words.now ≢ decimal n ∷ [])
        (λ n. (texts words.now ≡ decimal n ∷ []) × IsNumber n) }
{
    match words {
        [word] => number_of(word),
        _ => None,
    }
}

/// The numbers that two words are, where they stand alone.
pub(crate) fn two_numbers(words: &[&[u8]]) -> Option<(u64, u64)>
    ensures { MatchOption result
        ((m n : ℕ) → IsNumber m → IsNumber n → texts words.now ≢ decimal m ∷ decimal n ∷ [])
        (λ x. (texts words.now ≡ decimal x.0 ∷ decimal x.1 ∷ []) × IsNumber x.0 × IsNumber x.1) }
{
    match words {
        [first, second] => Some((number_of(first)?, number_of(second)?)),
        _ => None,
    }
}

// The value that a word is, where it stands alone.
fn one_value(alloc: Global, words: &[&[u8]]) -> Result<Option<Value>, NoMemory>
    ensures { IfOk result (λ read. MatchOption read
        ((v : AValue) → IsValue v → texts words.now ≢ value_text v ∷ [])
        (λ v. (texts words.now ≡ value_text v ∷ []) × IsValue v)) }
{
    match words {
        [word] => value_in(alloc, word),
        _ => Ok(None),
    }
}
