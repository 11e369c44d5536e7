ghost use Rattle.std.specs.Prelude.{◌≡◌, ◌≢◌, IfOk, MatchOption};
ghost use Rattle.rma_layout.specs.Placement.{IsBlock};
ghost use Rattle.object_store.specs.declared.phase.Phase.TheVariants.{Idle};
ghost use Rattle.object_store.specs.Works.{Nowhere, Works};
ghost use Rattle.holder_codec.specs.EdgeObject.{IsEdgeHolder};
ghost use Rattle.held_objects.specs.Changes.{any};
ghost use Rattle.edge_ops.specs.HeldEdges.{AtEdge, KnowsOut};
ghost use Rattle.edge_ops.specs.Loading.{LoadsEdge};

use crate::found_edge::FoundEdge;
use crate::own_object::open_edge;
use crate::records::record_out;
use held_objects::look;
use holder_codec::{KeepsGraph, VertexHolder};
use object_store::Store;
use rma_layout::DPtr;
use std::alloc::Global;

/// The edge of an ordinal from a vertex, by the object of the vertex: from its record, and from its own object where it is
/// heavy. There is none exactly where the vertex has no such edge.
pub fn load<L: KeepsGraph, S: Store<L>>(
    alloc: Global,
    store: &mut S,
    source: DPtr,
    ordinal: u64,
) -> Result<Option<FoundEdge>, S::Refused>
    requires begun { (S.state store.old).phase ≢ Idle }
    requires source { IsBlock (S.state store.old).shape source }
    requires edge { KnowsOut source ordinal any (S.state store.old) }
    ensures works { Works L.fits S.state S.explains S.says (AtEdge source ordinal (S.state store.old)) Nowhere store.old store.new result }
    ensures holder { IfOk result (λ found. MatchOption found (Unit {0}) (λ edge. IsEdgeHolder edge.holder)) }
    ensures loaded { IfOk result (λ found. LoadsEdge source ordinal (S.state store.old) (S.state store.new) found) }
{
    let from: VertexHolder = look(alloc, store, source)?;
    let Some(edge) = record_out(&from, ordinal) else {
        return Ok(None);
    };
    let holder = open_edge(alloc, store, from.id, &edge)?;
    Ok(Some(FoundEdge {
        undirected: edge.undirected,
        holder,
    }))
}
