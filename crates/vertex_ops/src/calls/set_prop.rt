ghost use Rattle.std.specs.Prelude.{◌≡◌, IfOk};
ghost use Rattle.rma_layout.specs.Placement.{IsBlock};
ghost use Rattle.object_store.specs.declared.phase.Phase.TheVariants.{Writing};
ghost use Rattle.object_store.specs.Works.{At, Nowhere, Works};
ghost use Rattle.held_objects.specs.Changes.{Changes, any};
ghost use Rattle.vertex_ops.specs.Vertices.{HoldsVertexWithSingle, KnowsVertexWithSingle, size, valued};

use crate::props::with_value;
use gdi_kinds::{Reply, Value};
use held_objects::{look, settle};
use holder_codec::KeepsGraph;
use object_store::Store;
use rma_layout::DPtr;
use std::alloc::Global;

/// Gives a vertex a value of a type that isn't marked, in the place of the one that it had: Done. TooLarge where its
/// object would have more words than an object may have; then nothing is changed.
pub fn set_prop<L: KeepsGraph, S: Store<L>>(
    alloc: Global,
    store: &mut S,
    at: DPtr,
    prop: u32,
    value: &Value,
) -> Result<Reply, S::Refused>
    requires begun { (S.state store.old).phase ≡ Writing }
    requires object { IsBlock (S.state store.old).shape at }
    requires vertex { KnowsVertexWithSingle prop at any (S.state store.old) }
    ensures works { Works L.fits S.state S.explains S.says (At at) Nowhere store.old store.new result }
    ensures valued { IfOk result (λ reply. Changes (HoldsVertexWithSingle prop at) size (valued prop value.now) (S.state store.old) (S.state store.new) reply) }
{
    let holder = look(alloc, store, at)?;
    let made = with_value(alloc, holder, prop, value);
    settle(alloc, store, at, made)
}
