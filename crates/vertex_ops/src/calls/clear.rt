ghost use Rattle.std.specs.Prelude.{◌≡◌, [], OnOk};
ghost use Rattle.rma_layout.specs.Placement.{IsBlock};
ghost use Rattle.object_store.specs.declared.phase.Phase.TheVariants.{Writing};
ghost use Rattle.object_store.specs.Works.{At, Nowhere, Works};
ghost use Rattle.held_objects.specs.Knows.{Knows};
ghost use Rattle.held_objects.specs.Changes.{any};
ghost use Rattle.vertex_ops.specs.Vertices.{IsEmptied, KnowsVertex};

use crate::opened::open;
use holder_codec::KeepsGraph;
use object_store::Store;
use object_words::Words;
use rma_layout::DPtr;
use std::alloc::Global;

/// Empties the object of a vertex.
pub fn clear<L: KeepsGraph, S: Store<L>>(
    alloc: Global,
    store: &mut S,
    at: DPtr,
) -> Result<(), S::Refused>
    requires begun { (S.state store.old).phase ≡ Writing }
    requires object { IsBlock (S.state store.old).shape at }
    requires vertex { KnowsVertex at any (S.state store.old) }
    ensures works { Works L.fits S.state S.explains S.says (At at) Nowhere store.old store.new result }
    ensures cleared { OnOk result (Knows (IsEmptied at) (S.state store.new)) }
{
    open(alloc, store, at)?;
    store.write(at, Words::new(alloc))?;
    Ok(())
}
