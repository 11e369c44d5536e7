ghost use Rattle.std.specs.Prelude.{ℕ, ◌≤◌, ◌↔◌, [], ◌∷◌, map, IsTrue, MatchOption, MatchResult};
ghost use Rattle.command_words.specs.Commands.{AreDrill, Asks, TellsWhy};
ghost use Rattle.command_words.specs.declared.command.CommandName.TheVariants as named;

use crate::matching::{match_load, match_names};
use crate::sources::source_in;
use crate::values::{names_in, no_names, number_in, one_file, two_files, two_names};
use crate::{Command, CommandName, UsageKind, WordsRefused};
use std::alloc::Global;

const LARGEST_DRILL: u64 = 10_000;

/// What the words behind a command's own ask for.
///
/// The words are refused with `Words` where they aren't in the command's form, then with `Number` where a number is
/// misspelled or out of its range, then with `Geometry` where the numbers make none.
pub fn read_words<'a>(
    alloc: Global,
    name: CommandName,
    words: &'a [&'a str],
) -> Result<Command<'a>, WordsRefused>
    ensures { MatchResult result (Asks name (map (λ word. word.now) words.now)) (TellsWhy name (map (λ word. word.now) words.now)) }
{
    match name {
        CommandName::Run => read_run(alloc, words),
        CommandName::Check => read_check(alloc, words),
        CommandName::Report => read_report(alloc, words),
        CommandName::Drill => read_drill(alloc, words),
    }
}

fn read_run<'a>(alloc: Global, words: &'a [&'a str]) -> Result<Command<'a>, WordsRefused>
    ensures { MatchResult result (Asks named.Run (map (λ word. word.now) words.now)) (TellsWhy named.Run (map (λ word. word.now) words.now)) }
{
    let matches = match match_load(alloc, words) {
        Ok(matches) => matches,
        Err(refused) => return Err(refused),
    };
    let Some(script) = one_file(names_in(&matches)) else {
        return Err(WordsRefused::Usage(UsageKind::Words));
    };
    match source_in(&matches) {
        Ok(source) => Ok(Command::Run { source, script }),
        Err(kind) => Err(WordsRefused::Usage(kind)),
    }
}

fn read_check<'a>(alloc: Global, words: &'a [&'a str]) -> Result<Command<'a>, WordsRefused>
    ensures { MatchResult result (Asks named.Check (map (λ word. word.now) words.now)) (TellsWhy named.Check (map (λ word. word.now) words.now)) }
{
    let matches = match match_load(alloc, words) {
        Ok(matches) => matches,
        Err(refused) => return Err(refused),
    };
    let Some((script, output)) = two_files(names_in(&matches)) else {
        return Err(WordsRefused::Usage(UsageKind::Words));
    };
    match source_in(&matches) {
        Ok(source) => Ok(Command::Check {
            source,
            script,
            output,
        }),
        Err(kind) => Err(WordsRefused::Usage(kind)),
    }
}

fn read_report<'a>(alloc: Global, words: &'a [&'a str]) -> Result<Command<'a>, WordsRefused>
    ensures { MatchResult result (Asks named.Report (map (λ word. word.now) words.now)) (TellsWhy named.Report (map (λ word. word.now) words.now)) }
{
    let matches = match match_load(alloc, words) {
        Ok(matches) => matches,
        Err(refused) => return Err(refused),
    };
    if !no_names(names_in(&matches)) {
        return Err(WordsRefused::Usage(UsageKind::Words));
    }
    match source_in(&matches) {
        Ok(source) => Ok(Command::Report { source }),
        Err(kind) => Err(WordsRefused::Usage(kind)),
    }
}

fn read_drill<'a>(alloc: Global, words: &'a [&'a str]) -> Result<Command<'a>, WordsRefused>
    ensures { MatchResult result (Asks named.Drill (map (λ word. word.now) words.now)) (TellsWhy named.Drill (map (λ word. word.now) words.now)) }
{
    let matches = match match_names(alloc, words) {
        Ok(matches) => matches,
        Err(refused) => return Err(refused),
    };
    let Some((first, second)) = two_names(names_in(&matches)) else {
        return Err(WordsRefused::Usage(UsageKind::Words));
    };
    match drill_of(first.as_bytes(), second.as_bytes()) {
        Some((size, seed)) => Ok(Command::Drill { size, seed }),
        None => Err(WordsRefused::Usage(UsageKind::Number)),
    }
}

// The size and the seed of a drill.
fn drill_of(first: &[u8], second: &[u8]) -> Option<(u64, u64)>
    ensures { MatchOption result ((size seed : ℕ) → ¬ AreDrill (first.now ∷ second.now ∷ []) size seed)
        (λ drill. AreDrill (first.now ∷ second.now ∷ []) drill.0 drill.1) }
{
    let size = number_in(first)?;
    let seed = number_in(second)?;
    if !is_size(size) {
        return None;
    }
    Some((size, seed))
}

fn is_size(size: u64) -> bool
    ensures { IsTrue result ↔ ((1 ≤ size) × (size ≤ 10000)) }
{
    1 <= size && size <= LARGEST_DRILL
}
