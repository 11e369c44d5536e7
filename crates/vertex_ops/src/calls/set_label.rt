ghost use Rattle.std.specs.Prelude.{◌≡◌, IfOk};
ghost use Rattle.rma_layout.specs.Placement.{IsBlock};
ghost use Rattle.object_store.specs.declared.phase.Phase.TheVariants.{Writing};
ghost use Rattle.object_store.specs.Works.{At, Nowhere, Works};
ghost use Rattle.held_objects.specs.Changes.{Changes, any};
ghost use Rattle.vertex_ops.specs.Vertices.{HoldsVertex, KnowsVertex, size, tagged};

use crate::labels::with_label;
use gdi_kinds::Reply;
use held_objects::{look, settle};
use holder_codec::KeepsGraph;
use object_store::Store;
use rma_layout::DPtr;
use std::alloc::Global;

/// Gives a vertex a label: Done. HasLabel where it has it, TooLarge where its object would have more words than an object
/// may have; then nothing is changed.
pub fn set_label<L: KeepsGraph, S: Store<L>>(
    alloc: Global,
    store: &mut S,
    at: DPtr,
    label: u32,
) -> Result<Reply, S::Refused>
    requires begun { (S.state store.old).phase ≡ Writing }
    requires object { IsBlock (S.state store.old).shape at }
    requires vertex { KnowsVertex at any (S.state store.old) }
    ensures works { Works L.fits S.state S.explains S.says (At at) Nowhere store.old store.new result }
    ensures labelled { IfOk result (λ reply. Changes (HoldsVertex at) size (tagged label) (S.state store.old) (S.state store.new) reply) }
{
    let holder = look(alloc, store, at)?;
    let made = with_label(holder, label);
    settle(alloc, store, at, made)
}
