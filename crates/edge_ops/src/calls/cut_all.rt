ghost use Rattle.std.specs.Prelude.{◌≡◌, [], IfOk};
ghost use Rattle.holder_codec.specs.Vertex.{IsVertexHolder};
ghost use Rattle.rma_layout.specs.Placement.{IsBlock};
ghost use Rattle.object_store.specs.declared.phase.Phase.TheVariants.{Writing};
ghost use Rattle.object_store.specs.Works.{Nowhere, Works};
ghost use Rattle.edge_ops.specs.CuttingAll.{AtEdges, CutsAll, KnowsAround};

use crate::far_ends::{far_ends, part_ends};
use crate::own_objects::{clear_owns, open_owns};
use gdi_kinds::NoMemory;
use held_objects::{look, put};
use holder_codec::{EdgeRecords, KeepsGraph, VertexHolder};
use object_store::{Store, give_up};
use rma_layout::DPtr;
use std::alloc::Global;

/// Takes all edges of a vertex away, at both ends and with their own objects. The vertex at each other end is read and
/// written once, however many edges there are between the two.
pub fn cut_all<L: KeepsGraph, S: Store<L>>(
    alloc: Global,
    store: &mut S,
    at: DPtr,
) -> Result<(), S::Refused>
    requires begun { (S.state store.old).phase ≡ Writing }
    requires object { IsBlock (S.state store.old).shape at }
    requires edges { KnowsAround at (S.state store.old) }
    ensures works { Works L.fits S.state S.explains S.says (AtEdges at (S.state store.old)) Nowhere store.old store.new result }
    ensures cut { IfOk result (λ _. CutsAll at (S.state store.old) (S.state store.new)) }
{
    let holder: VertexHolder = look(alloc, store, at)?;
    open_owns(alloc, store, holder.edges.as_slice())?;
    let Ok(ends) = far_ends(alloc, at, holder.edges.as_slice()) else {
        return Err(give_up(store));
    };
    part_ends(alloc, store, holder.id, ends.as_slice())?;
    clear_owns(alloc, store, holder.edges.as_slice())?;
    put(alloc, store, at, Ok(without_edges(alloc, holder)))?;
    Ok(())
}

fn without_edges(alloc: Global, holder: VertexHolder) -> VertexHolder
    requires { IsVertexHolder holder }
    ensures made { result ≡ record holder { edges = [] } }
    ensures is { IsVertexHolder result }
{
    let VertexHolder {
        id,
        next,
        labels,
        props,
        edges: _,
    } = holder;
    VertexHolder {
        id,
        next,
        labels,
        props,
        edges: EdgeRecords::new(alloc),
    }
}
