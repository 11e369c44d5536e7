ghost use Rattle.std.specs.Prelude.{◌≤◌, ◌↔◌, List, length, true, ◌≡◌, IsTrue, MatchResult};
ghost use Rattle.std.specs.List.{AllByRecursion};
ghost use Rattle.command_words.specs.Commands.{load_options};
ghost use Rattle.command_words.specs.Items.{Text, Item, begins_with_dash, is_among, values_of};
ghost use Rattle.command_words.specs.Matched.{HoldsItems};
ghost use Rattle.command_words.specs.Sources.{listed, ArePlainSizes, AreValues, IsFile, IsPlain, Sources, SourceRefused};

use crate::sizes::{Sizes, geometry_of};
use crate::values::value_of;
use crate::{Source, UsageKind};
use clap::ArgMatches;

/// What the options of a command that loads give.
pub(crate) fn source_in<'a>(matches: &ArgMatches<'a>) -> Result<Source<'a>, UsageKind>
    ensures { (items : List Item) → HoldsItems load_options items matches.now
        → ((option : Text) → is_among load_options option ≡ true → length (values_of option items) ≤ 1)
        → MatchResult result (Sources items) (SourceRefused items) }
{
    let vertices = value_of(matches, "vertices");
    let edges = value_of(matches, "edges");
    let sizes = Sizes {
        ranks: value_of(matches, "ranks"),
        blocks: value_of(matches, "blocks"),
        words: value_of(matches, "words"),
        buckets: value_of(matches, "buckets"),
        slots: value_of(matches, "slots"),
    };
    if !are_values(vertices, edges, &sizes) {
        return Err(UsageKind::Words);
    }
    match geometry_of(&sizes) {
        Ok(geometry) => Ok(Source {
            vertices,
            edges,
            geometry,
        }),
        Err(kind) => Err(kind),
    }
}

// Whether no value begins with `-`, and no name of a file is empty.
fn are_values(vertices: Option<&str>, edges: Option<&str>, sizes: &Sizes<'_>) -> bool
    ensures { IsTrue result ↔ AreValues (listed vertices.entry) (listed edges.entry) sizes.now }
{
    is_file(vertices) && is_file(edges) && are_plain(sizes)
}

fn are_plain(sizes: &Sizes<'_>) -> bool
    ensures { IsTrue result ↔ ArePlainSizes sizes.now }
{
    is_plain(sizes.ranks)
        && is_plain(sizes.blocks)
        && is_plain(sizes.words)
        && is_plain(sizes.buckets)
        && is_plain(sizes.slots)
}

fn is_plain(value: Option<&str>) -> bool
    ensures { IsTrue result ↔ AllByRecursion IsPlain (listed value.entry) }
{
    match value {
        Some(text) => !begins_with_dash(text.as_bytes()),
        None => true,
    }
}

fn is_file(value: Option<&str>) -> bool
    ensures { IsTrue result ↔ AllByRecursion IsFile (listed value.entry) }
{
    match value {
        Some(text) => !text.is_empty() && !begins_with_dash(text.as_bytes()),
        None => true,
    }
}

fn begins_with_dash(text: &[u8]) -> bool
    ensures { result ≡ begins_with_dash text.now }
{
    matches!(text, [b'-', ..])
}
