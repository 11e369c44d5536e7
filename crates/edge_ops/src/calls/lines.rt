ghost use Rattle.std.specs.Prelude.{◌≡◌, ◌≢◌, IfOk};
ghost use Rattle.rma_layout.specs.Placement.{IsBlock};
ghost use Rattle.object_store.specs.declared.phase.Phase.TheVariants.{Idle};
ghost use Rattle.object_store.specs.Works.{At, Nowhere, Works};
ghost use Rattle.held_objects.specs.Changes.{Tells, any};
ghost use Rattle.vertex_ops.specs.Vertices.{HoldsVertex, KnowsVertex};
ghost use Rattle.edge_ops.specs.Lines.{lines_of};

use crate::records::listed;
use gdi_kinds::{Dir, EdgeList, NoMemory};
use held_objects::look;
use holder_codec::{KeepsGraph, VertexHolder};
use object_store::{Store, give_up};
use rma_layout::DPtr;
use std::alloc::Global;

/// The edges of a vertex in the order of its records: first those whose source it is, by ordinal, then those whose target
/// it is, by source and ordinal. A self loop stands among both.
pub fn lines<L: KeepsGraph, S: Store<L>>(
    alloc: Global,
    store: &mut S,
    at: DPtr,
    dir: Dir,
) -> Result<EdgeList, S::Refused>
    requires begun { (S.state store.old).phase ≢ Idle }
    requires object { IsBlock (S.state store.old).shape at }
    requires vertex { KnowsVertex at any (S.state store.old) }
    ensures works { Works L.fits S.state S.explains S.says (At at) Nowhere store.old store.new result }
    ensures listed { IfOk result (λ lines. Tells (HoldsVertex at) (λ held. lines ≡ lines_of held.id dir held.edges) (S.state store.old) (S.state store.new)) }
{
    let holder: VertexHolder = look(alloc, store, at)?;
    match listed(alloc, &holder, dir) {
        Ok(lines) => Ok(lines),
        Err(NoMemory) => Err(give_up(store)),
    }
}
