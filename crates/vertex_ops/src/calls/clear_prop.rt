ghost use Rattle.std.specs.Prelude.{◌≡◌, IfOk};
ghost use Rattle.rma_layout.specs.Placement.{IsBlock};
ghost use Rattle.object_store.specs.declared.phase.Phase.TheVariants.{Writing};
ghost use Rattle.object_store.specs.Works.{At, Nowhere, Works};
ghost use Rattle.held_objects.specs.Changes.{Changes, any};
ghost use Rattle.vertex_ops.specs.Vertices.{HoldsVertex, KnowsVertex, size, unvalued};

use crate::props::without_value;
use gdi_kinds::Reply;
use held_objects::{look, settle};
use holder_codec::KeepsGraph;
use object_store::Store;
use rma_layout::DPtr;
use std::alloc::Global;

/// Takes all values of a type from a vertex, whether the type is marked or not: Done. NoProp where it has none; then
/// nothing is changed.
pub fn clear_prop<L: KeepsGraph, S: Store<L>>(
    alloc: Global,
    store: &mut S,
    at: DPtr,
    prop: u32,
) -> Result<Reply, S::Refused>
    requires begun { (S.state store.old).phase ≡ Writing }
    requires object { IsBlock (S.state store.old).shape at }
    requires vertex { KnowsVertex at any (S.state store.old) }
    ensures works { Works L.fits S.state S.explains S.says (At at) Nowhere store.old store.new result }
    ensures unvalued { IfOk result (λ reply. Changes (HoldsVertex at) size (unvalued prop) (S.state store.old) (S.state store.new) reply) }
{
    let holder = look(alloc, store, at)?;
    let made = without_value(holder, prop);
    settle(alloc, store, at, Ok(made))
}
