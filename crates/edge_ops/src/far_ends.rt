ghost use Rattle.std.specs.Prelude.{◌≡◌, ◌⊎◌, IfOk, IsTrue, OnOk, Some, not};
ghost use Rattle.std.specs.List.{Contains};
ghost use Rattle.std.specs.List.Sorted.{IsPermutation};
ghost use Rattle.rma_layout.specs.Placement.{IsBlock, Place, same_place};
ghost use Rattle.object_store.specs.declared.phase.Phase.TheVariants.{Writing};
ghost use Rattle.object_store.specs.Works.{At, Nowhere, Works};
ghost use Rattle.held_objects.specs.Changes.{any};
ghost use Rattle.vertex_ops.specs.Vertices.{KnowsVertex};
ghost use Rattle.edge_ops.specs.Parting.{PartsEnd, PartsEnds, far_ends};

use crate::parted::part_end;
use gdi_kinds::NoMemory;
use holder_codec::{EdgeRecord, KeepsGraph};
use object_store::Store;
use rma_layout::DPtr;
use std::alloc::Global;

/// The objects at the other ends of edges, but of loops. An object that stands again stands next to itself.
pub(crate) fn far_ends(alloc: Global, at: DPtr, edges: &[EdgeRecord]) -> Result<Vec<DPtr>, NoMemory>
    ensures { IfOk result (λ ends. IsPermutation (far_ends at edges.now) ends.items) }
{
    let mut ends = collected(alloc, at, edges)?;
    ends.sort_unstable_by_key(|end| end.raw());
    Ok(ends)
}

fn collected(alloc: Global, at: DPtr, edges: &[EdgeRecord]) -> Result<Vec<DPtr>, NoMemory>
    ensures { IfOk result (λ ends. ends.items ≡ far_ends at edges.now) }
{
    let mut ends = Vec::new(alloc);
    for edge in edges {
        if is_far(edge.other_at, at) {
            ends.push(edge.other_at)?;
        }
    }
    Ok(ends)
}

fn is_far(end: DPtr, at: DPtr) -> bool
    ensures { result ≡ not (same_place end at) }
{
    if end == at {
        return false;
    }
    true
}

/// Takes all edges from and to a vertex away from the vertices in these objects. Each that stands next to itself is read and
/// written once.
pub(crate) fn part_ends<L: KeepsGraph, S: Store<L>>(
    alloc: Global,
    store: &mut S,
    id: u64,
    ends: &[DPtr],
) -> Result<(), S::Refused>
    requires begun { (S.state store.old).phase ≡ Writing }
    requires blocks { (end : Place) → Contains ends.now end → IsBlock (S.state store.old).shape end }
    requires known { (end : Place) → Contains ends.now end → KnowsVertex end any (S.state store.old) }
    ensures works { Works L.fits S.state S.explains S.says (λ _. Contains ends.now) Nowhere store.old store.new result }
    ensures parted { OnOk result (PartsEnds id ends.now (S.state store.old) (S.state store.new)) }
{
    store.stays_sound();
    let mut last: Option<DPtr> = None;
    for end in ends {
        part_next(alloc, store, id, last, *end)?;
        last = Some(*end);
    }
    Ok(())
}

/// Does this for one object, unless it was the last one.
fn part_next<L: KeepsGraph, S: Store<L>>(
    alloc: Global,
    store: &mut S,
    id: u64,
    last: Option<DPtr>,
    end: DPtr,
) -> Result<(), S::Refused>
    requires begun { (S.state store.old).phase ≡ Writing }
    requires object { IsBlock (S.state store.old).shape end }
    requires vertex { KnowsVertex end any (S.state store.old) }
    ensures works { Works L.fits S.state S.explains S.says (At end) Nowhere store.old store.new result }
    ensures parted { IfOk result (λ _. PartsEnd id end (S.state store.old) (S.state store.new)
        ⊎ ((last ≡ Some end) × (S.state store.new ≡ S.state store.old))) }
{
    if is_again(last, end) {
        store.stays_sound();
        return Ok(());
    }
    part_end(alloc, store, end, id)
}

fn is_again(last: Option<DPtr>, end: DPtr) -> bool
    ensures { IsTrue result → last ≡ Some end }
{
    match last {
        Some(one) => one == end,
        None => false,
    }
}
