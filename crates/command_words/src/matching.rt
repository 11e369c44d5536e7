ghost use Rattle.std.specs.Prelude.{◌≡◌, [], map, false, IfOk, MatchResult, IsTrue};
ghost use Rattle.clap.specs.Words.{app_of, kind_of, rule_of, with_rule};
ghost use Rattle.command_words.specs.Commands.{load_options};
ghost use Rattle.command_words.specs.Matched.{IsMatched};
ghost use Rattle.command_words.specs.Parsed.{new_option, new_names, bare_app, new_app, refusal_for, OrMemory};

use crate::short::has_short;
use crate::{UsageKind, WordsRefused};
use clap::error::ErrorKind;
use clap::{Arg, ArgAction, ArgMatches, Command};
use std::alloc::{AllocError, Global};

/// What the words of a command that loads hold, by its options.
pub(crate) fn match_load<'a>(
    alloc: Global,
    words: &'a [&'a str],
) -> Result<ArgMatches<'a>, WordsRefused>
    ensures { MatchResult result (IsMatched load_options (map (λ word. word.now) words.now)) (OrMemory load_options (map (λ word. word.now) words.now)) }
{
    if has_short(words) {
        return Err(WordsRefused::Usage(UsageKind::Words));
    }
    let command = match load_command(alloc) {
        Ok(command) => command,
        Err(AllocError) => return Err(WordsRefused::NoMemory),
    };
    match command.try_get_matches_from(words) {
        Ok(matches) => Ok(matches),
        Err(error) => Err(refusal_of(&error)),
    }
}

/// What the words of a command without options hold.
pub(crate) fn match_names<'a>(
    alloc: Global,
    words: &'a [&'a str],
) -> Result<ArgMatches<'a>, WordsRefused>
    ensures { MatchResult result (IsMatched [] (map (λ word. word.now) words.now)) (OrMemory [] (map (λ word. word.now) words.now)) }
{
    if has_short(words) {
        return Err(WordsRefused::Usage(UsageKind::Words));
    }
    let command = match plain_command(alloc) {
        Ok(command) => command,
        Err(AllocError) => return Err(WordsRefused::NoMemory),
    };
    match command.try_get_matches_from(words) {
        Ok(matches) => Ok(matches),
        Err(error) => Err(refusal_of(&error)),
    }
}

fn refusal_of(error: &clap::Error) -> WordsRefused
    ensures { result ≡ refusal_for (kind_of error.now) }
{
    match error.kind() {
        ErrorKind::OutOfMemory => WordsRefused::NoMemory,
        _ => WordsRefused::Usage(UsageKind::Words),
    }
}

fn load_command<'a>(alloc: Global) -> Result<Command<'a>, AllocError>
    ensures { IfOk result (λ command. app_of command ≡ new_app load_options) }
{
    let command = bare_command(alloc);
    let files = with_option(alloc, command, "vertices")?;
    let files = with_option(alloc, files, "edges")?;
    let sizes = with_option(alloc, files, "ranks")?;
    let sizes = with_option(alloc, sizes, "blocks")?;
    let sizes = with_option(alloc, sizes, "words")?;
    let sizes = with_option(alloc, sizes, "buckets")?;
    let sizes = with_option(alloc, sizes, "slots")?;
    sizes.arg(names(alloc))
}

fn with_option<'a>(
    alloc: Global,
    command: Command<'a>,
    name: &'a str,
) -> Result<Command<'a>, AllocError>
    ensures { IfOk result (λ made. app_of made ≡ with_rule (app_of command.entry) (new_option name.entry.now)) }
{
    command.arg(option_of(alloc, name))
}

fn plain_command<'a>(alloc: Global) -> Result<Command<'a>, AllocError>
    ensures { IfOk result (λ command. app_of command ≡ new_app []) }
{
    bare_command(alloc).arg(names(alloc))
}

fn bare_command<'a>(alloc: Global) -> Command<'a>
    ensures { app_of result ≡ bare_app }
{
    Command::new(alloc, "gdi")
        .no_binary_name(true)
        .disable_help_flag(true)
}

// An option with one value, which may be given once.
fn option_of<'a>(alloc: Global, name: &'a str) -> Arg<'a>
    ensures rule { rule_of result ≡ new_option name.now }
    ensures local { result.global ≡ false }
{
    Arg::new(alloc, name).long(name)
}

// The names, as many as there are.
fn names<'a>(alloc: Global) -> Arg<'a>
    ensures rule { rule_of result ≡ new_names }
    ensures local { result.global ≡ false }
{
    Arg::new(alloc, "names").action(ArgAction::Append)
}
