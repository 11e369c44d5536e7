ghost use Rattle.std.specs.Prelude.{◌≡◌, IfOk};
ghost use Rattle.rma_layout.specs.Placement.{IsBlock};
ghost use Rattle.object_store.specs.declared.phase.Phase.TheVariants.{Writing};
ghost use Rattle.object_store.specs.Works.{At, Nowhere, Works};
ghost use Rattle.holder_codec.specs.Vertex.{IsVertexHolder};
ghost use Rattle.held_objects.specs.Changes.{any};
ghost use Rattle.vertex_ops.specs.Vertices.{Keeps, KnowsVertex};

use crate::opened::open;
use holder_codec::{KeepsGraph, VertexHolder};
use object_store::{Store, give_up};
use rma_layout::{DPtr, MOST_WORDS};
use std::alloc::Global;

/// Lets the object of a vertex hold this in place of what it holds. It answers false, and changes nothing, exactly where
/// that has more words than an object may have.
pub fn keep<L: KeepsGraph, S: Store<L>>(
    alloc: Global,
    store: &mut S,
    at: DPtr,
    holder: VertexHolder,
) -> Result<bool, S::Refused>
    requires begun { (S.state store.old).phase ≡ Writing }
    requires object { IsBlock (S.state store.old).shape at }
    requires vertex { KnowsVertex at any (S.state store.old) }
    requires holder { IsVertexHolder holder }
    ensures works { Works L.fits S.state S.explains S.says (At at) Nowhere store.old store.new result }
    ensures kept { IfOk result (λ kept. Keeps at holder (S.state store.old) (S.state store.new) kept) }
{
    open(alloc, store, at)?;
    let Ok(words) = holder.write(alloc) else {
        return Err(give_up(store));
    };
    if words.as_slice().len() as u64 > MOST_WORDS {
        return Ok(false);
    }
    store.write(at, words)?;
    Ok(true)
}
