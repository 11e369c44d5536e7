ghost use Rattle.std.specs.Prelude.{◌≡◌, ◌==◌, IfOk, not};
ghost use Rattle.std.specs.List.{filter};
ghost use Rattle.rma_layout.specs.Placement.{IsBlock};
ghost use Rattle.object_store.specs.declared.phase.Phase.TheVariants.{Writing};
ghost use Rattle.object_store.specs.Works.{At, Nowhere, Works};
ghost use Rattle.holder_codec.specs.Vertex.{IsVertexHolder};
ghost use Rattle.held_objects.specs.Changes.{any};
ghost use Rattle.vertex_ops.specs.Vertices.{KnowsVertex};
ghost use Rattle.edge_ops.specs.Parting.{PartsEnd, holder_apart};

use held_objects::{look, put};
use holder_codec::{EdgeRecords, KeepsGraph, VertexHolder};
use object_store::Store;
use rma_layout::DPtr;
use std::alloc::Global;

/// Takes all edges from and to a vertex away from the vertex in another object.
pub(crate) fn part_end<L: KeepsGraph, S: Store<L>>(
    alloc: Global,
    store: &mut S,
    end: DPtr,
    id: u64,
) -> Result<(), S::Refused>
    requires begun { (S.state store.old).phase ≡ Writing }
    requires object { IsBlock (S.state store.old).shape end }
    requires vertex { KnowsVertex end any (S.state store.old) }
    ensures works { Works L.fits S.state S.explains S.says (At end) Nowhere store.old store.new result }
    ensures parted { IfOk result (λ _. PartsEnd id end (S.state store.old) (S.state store.new)) }
{
    let holder: VertexHolder = look(alloc, store, end)?;
    let parted = parted(holder, id);
    // Fewer records are never too many words.
    put(alloc, store, end, Ok(parted))?;
    Ok(())
}

/// A vertex without the records of its edges from and to another one.
fn parted(holder: VertexHolder, id: u64) -> VertexHolder
    requires { IsVertexHolder holder }
    ensures made { result ≡ holder_apart id holder }
    ensures is { IsVertexHolder result }
{
    let VertexHolder {
        id: own,
        next,
        labels,
        props,
        edges,
    } = holder;
    let edges = left_out(edges, id);
    VertexHolder {
        id: own,
        next,
        labels,
        props,
        edges,
    }
}

fn left_out(edges: EdgeRecords, id: u64) -> EdgeRecords
    ensures { result ≡ filter (λ edge. not (edge.other == id)) edges }
{
    let mut edges = edges.into_vec();
    edges.retain(|edge| edge.other != id);
    EdgeRecords::from_vec(edges)
}
