ghost use Rattle.std.specs.Prelude.{◌≡◌, IfOk};
ghost use Rattle.rma_layout.specs.Placement.{IsBlock};
ghost use Rattle.object_store.specs.declared.phase.Phase.TheVariants.{Writing};
ghost use Rattle.object_store.specs.Works.{At, Nowhere, Works};
ghost use Rattle.held_objects.specs.Changes.{Changes, any};
ghost use Rattle.vertex_ops.specs.Vertices.{HoldsVertex, KnowsVertex, size, untagged};

use crate::labels::without_label;
use gdi_kinds::Reply;
use held_objects::{look, settle};
use holder_codec::KeepsGraph;
use object_store::Store;
use rma_layout::DPtr;
use std::alloc::Global;

/// Takes a label from a vertex: Done. LacksLabel where it lacks it; then nothing is changed.
pub fn clear_label<L: KeepsGraph, S: Store<L>>(
    alloc: Global,
    store: &mut S,
    at: DPtr,
    label: u32,
) -> Result<Reply, S::Refused>
    requires begun { (S.state store.old).phase ≡ Writing }
    requires object { IsBlock (S.state store.old).shape at }
    requires vertex { KnowsVertex at any (S.state store.old) }
    ensures works { Works L.fits S.state S.explains S.says (At at) Nowhere store.old store.new result }
    ensures unlabelled { IfOk result (λ reply. Changes (HoldsVertex at) size (untagged label) (S.state store.old) (S.state store.new) reply) }
{
    let holder = look(alloc, store, at)?;
    let made = without_label(holder, label);
    settle(alloc, store, at, Ok(made))
}
