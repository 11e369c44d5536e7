ghost use Rattle.std.specs.Prelude.{◌≡◌, ◌≢◌, ◌<◌, MatchOption, length};
ghost use Rattle.script_text.specs.Verbs.{word_of, is_whole};
ghost use Rattle.script_text.specs.declared.verb.Verb.{Verb as AVerb};

/// The first word of a call's line.
#[derive(Clone, Copy, Debug, PartialEq, Eq)]
pub(crate) enum Verb {
    NewLabel,
    NewType,
    Vertex,
    Has,
    Drop,
    Tag,
    Untag,
    Tags,
    Set,
    Add,
    Get,
    Unset,
    Props,
    Edge,
    UEdge,
    Cut,
    Target,
    ETag,
    EUntag,
    ETags,
    ESet,
    EAdd,
    EGet,
    EUnset,
    EProps,
    Edges,
    Near,
    Degree,
    Find,
    Hood,
    Levels,
    Parts,
    Scan,
    Vertices,
    Arcs,
}

/// The verb that a word is.
pub(crate) fn verb_of(word: &[u8]) -> Option<Verb>
    ensures { MatchOption result ((v : AVerb) → word.now ≢ word_of v) (λ v. word.now ≡ word_of v) }
{
    match word.len() {
        3 => verb_of_three(word),
        4 => verb_of_four(word),
        5 => verb_of_five(word),
        6 => verb_of_six(word),
        _ => longer_verb_of(word),
    }
}

// The same of the words of three letters.
fn verb_of_three(word: &[u8]) -> Option<Verb>
    ensures { MatchOption result
        ((v : AVerb) → length (word_of v) ≡ 3 → word.now ≢ word_of v)
        (λ v. word.now ≡ word_of v) }
{
    Some(match word {
        b"has" => Verb::Has,
        b"tag" => Verb::Tag,
        b"set" => Verb::Set,
        b"add" => Verb::Add,
        b"get" => Verb::Get,
        b"cut" => Verb::Cut,
        _ => return None,
    })
}

// The same of the words of four letters.
fn verb_of_four(word: &[u8]) -> Option<Verb>
    ensures { MatchOption result
        ((v : AVerb) → length (word_of v) ≡ 4 → word.now ≢ word_of v)
        (λ v. word.now ≡ word_of v) }
{
    Some(match word {
        b"drop" => Verb::Drop,
        b"tags" => Verb::Tags,
        b"edge" => Verb::Edge,
        b"etag" => Verb::ETag,
        b"eset" => Verb::ESet,
        b"eadd" => Verb::EAdd,
        b"eget" => Verb::EGet,
        b"near" => Verb::Near,
        b"find" => Verb::Find,
        b"hood" => Verb::Hood,
        b"scan" => Verb::Scan,
        b"arcs" => Verb::Arcs,
        _ => return None,
    })
}

// The same of the words of five letters.
fn verb_of_five(word: &[u8]) -> Option<Verb>
    ensures { MatchOption result
        ((v : AVerb) → length (word_of v) ≡ 5 → word.now ≢ word_of v)
        (λ v. word.now ≡ word_of v) }
{
    Some(match word {
        b"untag" => Verb::Untag,
        b"unset" => Verb::Unset,
        b"props" => Verb::Props,
        b"uedge" => Verb::UEdge,
        b"etags" => Verb::ETags,
        b"edges" => Verb::Edges,
        b"parts" => Verb::Parts,
        _ => return None,
    })
}

// The same of the words of six letters.
fn verb_of_six(word: &[u8]) -> Option<Verb>
    ensures { MatchOption result
        ((v : AVerb) → length (word_of v) ≡ 6 → word.now ≢ word_of v)
        (λ v. word.now ≡ word_of v) }
{
    Some(match word {
        b"vertex" => Verb::Vertex,
        b"target" => Verb::Target,
        b"euntag" => Verb::EUntag,
        b"eunset" => Verb::EUnset,
        b"eprops" => Verb::EProps,
        b"degree" => Verb::Degree,
        b"levels" => Verb::Levels,
        _ => return None,
    })
}

// The same of the longer words.
fn longer_verb_of(word: &[u8]) -> Option<Verb>
    ensures { MatchOption result
        ((v : AVerb) → 6 < length (word_of v) → word.now ≢ word_of v)
        (λ v. word.now ≡ word_of v) }
{
    Some(match word {
        b"newtype" => Verb::NewType,
        b"newlabel" => Verb::NewLabel,
        b"vertices" => Verb::Vertices,
        _ => return None,
    })
}

impl Verb {
    /// Whether it is the word of a whole-graph call.
    pub(crate) fn is_whole(self) -> bool
        ensures { result ≡ is_whole self }
    {
        matches!(
            self,
            Verb::Hood | Verb::Levels | Verb::Parts | Verb::Scan | Verb::Vertices | Verb::Arcs
        )
    }
}
