ghost use Rattle.std.specs.Prelude.{◌≡◌, ◌≢◌, ◌<◌, MatchOption, length};
ghost use Rattle.outcome_text.specs.Reading.{text_of_word};
ghost use Rattle.outcome_text.specs.declared.reply_word.ReplyWord.{ReplyWord as AReplyWord};

/// The word of a reply's line.
#[derive(Clone, Copy, Debug, PartialEq, Eq)]
pub(crate) enum ReplyWord {
    Done,
    Yes,
    No,
    Exists,
    NoVertex,
    NoEdge,
    NoLabel,
    NoType,
    NoProp,
    WrongKind,
    NotMany,
    HasLabel,
    LacksLabel,
    TooLarge,
    EdgeIs,
    Labels,
    Props,
    Value,
    Values,
    Edges,
    Ids,
    Levels,
    Parts,
    Count,
}

/// The reply's word that a word is.
pub(crate) fn reply_word_of(word: &[u8]) -> Option<ReplyWord>
    ensures { MatchOption result ((w : AReplyWord) → word.now ≢ text_of_word w) (λ w. word.now ≡ text_of_word w) }
{
    if word.len() < 6 {
        short_word_of(word)
    } else {
        long_word_of(word)
    }
}

// The same of the words of less than six letters.
fn short_word_of(word: &[u8]) -> Option<ReplyWord>
    ensures { MatchOption result
        ((w : AReplyWord) → length (text_of_word w) < 6 → word.now ≢ text_of_word w)
        (λ w. word.now ≡ text_of_word w) }
{
    Some(match word {
        b"done" => ReplyWord::Done,
        b"yes" => ReplyWord::Yes,
        b"no" => ReplyWord::No,
        b"edge" => ReplyWord::EdgeIs,
        b"props" => ReplyWord::Props,
        b"value" => ReplyWord::Value,
        b"edges" => ReplyWord::Edges,
        b"ids" => ReplyWord::Ids,
        b"parts" => ReplyWord::Parts,
        b"count" => ReplyWord::Count,
        _ => return None,
    })
}

// The same of the longer words.
fn long_word_of(word: &[u8]) -> Option<ReplyWord>
    ensures { MatchOption result
        ((w : AReplyWord) → 5 < length (text_of_word w) → word.now ≢ text_of_word w)
        (λ w. word.now ≡ text_of_word w) }
{
    Some(match word {
        b"exists" => ReplyWord::Exists,
        b"novertex" => ReplyWord::NoVertex,
        b"noedge" => ReplyWord::NoEdge,
        b"nolabel" => ReplyWord::NoLabel,
        b"notype" => ReplyWord::NoType,
        b"noprop" => ReplyWord::NoProp,
        b"wrongkind" => ReplyWord::WrongKind,
        b"notmany" => ReplyWord::NotMany,
        b"haslabel" => ReplyWord::HasLabel,
        b"lackslabel" => ReplyWord::LacksLabel,
        b"toolarge" => ReplyWord::TooLarge,
        b"labels" => ReplyWord::Labels,
        b"values" => ReplyWord::Values,
        b"levels" => ReplyWord::Levels,
        _ => return None,
    })
}
