ghost use Rattle.std.specs.Prelude.{◌≡◌, ◌≢◌, IfOk};
ghost use Rattle.rma_layout.specs.Placement.{IsBlock};
ghost use Rattle.object_store.specs.declared.phase.Phase.TheVariants.{Idle};
ghost use Rattle.object_store.specs.Works.{At, Nowhere, Works};
ghost use Rattle.holder_codec.specs.Vertex.{IsVertexHolder};
ghost use Rattle.held_objects.specs.Changes.{Tells, any};
ghost use Rattle.vertex_ops.specs.Vertices.{HoldsVertex, KnowsVertex, holder_for};

use held_objects::look;
use holder_codec::{KeepsGraph, VertexHolder};
use object_store::Store;
use rma_layout::DPtr;
use std::alloc::Global;

/// A vertex as its object holds it.
pub fn load<L: KeepsGraph, S: Store<L>>(
    alloc: Global,
    store: &mut S,
    at: DPtr,
) -> Result<VertexHolder, S::Refused>
    requires begun { (S.state store.old).phase ≢ Idle }
    requires object { IsBlock (S.state store.old).shape at }
    requires vertex { KnowsVertex at any (S.state store.old) }
    ensures works { Works L.fits S.state S.explains S.says (At at) Nowhere store.old store.new result }
    ensures holder { IfOk result IsVertexHolder }
    ensures found { IfOk result (λ holder. Tells (HoldsVertex at) (λ held. holder ≡ holder_for held) (S.state store.old) (S.state store.new)) }
{
    let holder = look(alloc, store, at)?;
    Ok(holder)
}
