ghost use Rattle.std.specs.Prelude.{◌≡◌, None, MatchResult};
ghost use Rattle.rma_layout.specs.Ranges.{refusal_of};
ghost use Rattle.command_words.specs.Sources.{AreSizes, GeometryRefused};

use crate::UsageKind;
use crate::values::number_or;
use rma_layout::Geometry;

/// The texts of the sizes of a window, as far as they are given.
#[derive(Clone, Copy, Debug)]
pub(crate) struct Sizes<'a> {
    pub(crate) ranks: Option<&'a str>,
    pub(crate) blocks: Option<&'a str>,
    pub(crate) words: Option<&'a str>,
    pub(crate) buckets: Option<&'a str>,
    pub(crate) slots: Option<&'a str>,
}

/// The geometry of these sizes; those that aren't given are the usual ones.
pub(crate) fn geometry_of(sizes: &Sizes<'_>) -> Result<Geometry, UsageKind>
    ensures { MatchResult result (λ geometry. AreSizes sizes.now geometry × (refusal_of geometry ≡ None)) (GeometryRefused sizes.now) }
{
    let Some(ranks) = number_or(sizes.ranks, 4) else {
        return Err(UsageKind::Number);
    };
    let Some(blocks) = number_or(sizes.blocks, 16_384) else {
        return Err(UsageKind::Number);
    };
    let Some(words) = number_or(sizes.words, 16) else {
        return Err(UsageKind::Number);
    };
    let Some(buckets) = number_or(sizes.buckets, 64) else {
        return Err(UsageKind::Number);
    };
    let Some(slots) = number_or(sizes.slots, 16) else {
        return Err(UsageKind::Number);
    };
    match Geometry::new(ranks, blocks, words, buckets, slots) {
        Ok(geometry) => Ok(geometry),
        Err(bad) => Err(UsageKind::Geometry(bad)),
    }
}
