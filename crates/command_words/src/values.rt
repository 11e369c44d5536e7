ghost use Rattle.std.specs.Prelude.{◌≡◌, ◌≢◌, ◌≤◌, ℕ, [], ◌∷◌, List, length, map, true, ◌↔◌, IsTrue, MatchOption};
ghost use Rattle.command_words.specs.Commands.{IsChosen, IsNumber};
ghost use Rattle.command_words.specs.Items.{Text, Item, is_among, names_of, values_of};
ghost use Rattle.command_words.specs.Matched.{HoldsItems};
ghost use Rattle.command_words.specs.Names.{AreFiles, AreNames};
ghost use Rattle.command_words.specs.Sources.{listed};

use clap::ArgMatches;
use text_words::number_of;

/// The value of an option.
pub(crate) fn value_of<'a>(matches: &ArgMatches<'a>, option: &str) -> Option<&'a str>
    ensures { (options : List Text) (items : List Item) → HoldsItems options items matches.now → is_among options option.now ≡ true
        → length (values_of option.now items) ≤ 1 → values_of option.now items ≡ listed result }
{
    matches.get_str(option)
}

/// The names, as far as a command may want them.
#[derive(Clone, Copy, Debug)]
pub(crate) enum Names<'a> {
    Nothing,
    One(&'a str),
    Two(&'a str, &'a str),
    More,
}

/// The names that were given.
pub(crate) fn names_in<'a>(matches: &ArgMatches<'a>) -> Names<'a>
    ensures { (options : List Text) (items : List Item) → HoldsItems options items matches.now → AreNames (names_of items) result }
{
    match matches.get_raw("names") {
        Some(names) => counted(names),
        None => Names::Nothing,
    }
}

/// Whether there are no names.
pub(crate) fn no_names(names: Names<'_>) -> bool
    ensures { (given : List Text) → AreNames given names.entry → IsTrue result ↔ (given ≡ []) }
{
    matches!(names, Names::Nothing)
}

/// The two names, where there are two and no other.
pub(crate) fn two_names<'a>(names: Names<'a>) -> Option<(&'a str, &'a str)>
    ensures { MatchOption result ((given : List Text) → AreNames given names.entry → length given ≢ 2)
        (λ pair. (given : List Text) → AreNames given names.entry → given ≡ pair.0.now ∷ pair.1.now ∷ []) }
{
    match names {
        Names::Two(first, second) => Some((first, second)),
        _ => None,
    }
}

/// The one name of a file, where there is one and no other.
pub(crate) fn one_file<'a>(names: Names<'a>) -> Option<&'a str>
    ensures { MatchOption result ((given : List Text) → AreNames given names.entry → ¬ AreFiles 1 given)
        (λ name. (given : List Text) → AreNames given names.entry → (given ≡ name.now ∷ []) × (name.now ≢ [])) }
{
    match names {
        Names::One(name) if !name.is_empty() => Some(name),
        _ => None,
    }
}

/// The two names of files, where there are two and no other.
pub(crate) fn two_files<'a>(names: Names<'a>) -> Option<(&'a str, &'a str)>
    ensures { MatchOption result ((given : List Text) → AreNames given names.entry → ¬ AreFiles 2 given)
        (λ pair. (given : List Text) → AreNames given names.entry → (given ≡ pair.0.now ∷ pair.1.now ∷ []) × (pair.0.now ≢ []) × (pair.1.now ≢ [])) }
{
    match names {
        Names::Two(first, second) if !first.is_empty() && !second.is_empty() => {
            Some((first, second))
        }
        _ => None,
    }
}

fn counted<'a>(names: &[&'a str]) -> Names<'a>
    ensures { AreNames (map (λ name. name.now) names.now) result }
{
    match names {
        [] => Names::Nothing,
        [name] => Names::One(name),
        [first, second] => Names::Two(first, second),
        _ => Names::More,
    }
}

/// The number that a text spells.
pub(crate) fn number_in(text: &[u8]) -> Option<u64>
    ensures { MatchOption result ((n : ℕ) → ¬ IsNumber text.now n) (λ n. IsNumber text.now n) }
{
    number_of(text)
}

/// An option's number, or the usual one where it isn't given.
pub(crate) fn number_or(text: Option<&str>, usual: u64) -> Option<u64>
    ensures { MatchOption result ((n : ℕ) → ¬ IsChosen (listed text.entry) usual n) (λ n. IsChosen (listed text.entry) usual n) }
{
    match text {
        Some(text) => number_of(text.as_bytes()),
        None => Some(usual),
    }
}
