ghost use Rattle.std.specs.Prelude.{◌≡◌, ◌≢◌, OnOk};
ghost use Rattle.rma_layout.specs.Placement.{IsBlock};
ghost use Rattle.object_words.specs.Contents.{IsByRisingObject};
ghost use Rattle.object_store.specs.declared.phase.Phase.TheVariants.{Idle};
ghost use Rattle.object_store.specs.Calls.{MayWrite};
ghost use Rattle.object_store.specs.Works.{At, Looks, Nowhere, Works};
ghost use Rattle.held_objects.specs.Changes.{any};
ghost use Rattle.vertex_ops.specs.Vertices.{KnowsVertex};

use held_objects::look;
use holder_codec::{KeepsGraph, VertexHolder};
use object_store::Store;
use rma_layout::DPtr;
use std::alloc::Global;

/// Reads the object of a vertex, so that it may be written.
pub(crate) fn open<L: KeepsGraph, S: Store<L>>(
    alloc: Global,
    store: &mut S,
    at: DPtr,
) -> Result<(), S::Refused>
    requires begun { (S.state store.old).phase ≢ Idle }
    requires object { IsBlock (S.state store.old).shape at }
    requires vertex { KnowsVertex at any (S.state store.old) }
    ensures works { Works L.fits S.state S.explains S.says (At at) Nowhere store.old store.new result }
    ensures looks { OnOk result (Looks (S.state store.old) (S.state store.new)) }
    ensures may { OnOk result (MayWrite (S.state store.new) at) }
    ensures ordered { OnOk result (IsByRisingObject (S.state store.new).writes) }
{
    let held: VertexHolder = look(alloc, store, at)?;
    drop(held);
    Ok(())
}
