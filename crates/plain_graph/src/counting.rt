ghost use Rattle.std.specs.Prelude.{◌≡◌, ◌<◌, ◌∷◌, [], IfOk, OnOk, if◌then◌else◌, ◌==◌};
ghost use Rattle.graph_model.specs.Capacity.{words_of};
ghost use Rattle.graph_model.specs.Graph.{is_heavy};
ghost use Rattle.map_graph.specs.Named.{IsName, object_of, rank_in};
ghost use Rattle.plain_graph.specs.Counted.{CountsAlso, IsCountOf, edge_objects, reserved_objects, vertex_objects};

use crate::BlockCount;
use crate::trial::{blocks_of_words, rank_of};
use edge_index::EdgeKey;
use gdi_kinds::NoMemory;
use graph_parts::HeldEdge;
use map_graph::{MapGraph, ModelRefused, ObjectName};
use rma_layout::Geometry;

/// Counts the blocks of a graph's objects, in one pass over its vertices and edges.
pub fn count_blocks(geometry: &Geometry, map: &MapGraph) -> Result<BlockCount, NoMemory>
    requires { geometry.now ≡ map.now.shape }
    ensures { IfOk result (IsCountOf map.now.shape map.now.graph) }
{
    geometry.keeps_ranges();
    let mut count = BlockCount::none();
    count_reserved(&mut count, geometry, map)?;
    count_vertices(&mut count, geometry, map)?;
    count_edges(&mut count, geometry, map)?;
    Ok(count)
}

fn count_reserved(
    count: &mut BlockCount,
    geometry: &Geometry,
    map: &MapGraph,
) -> Result<(), NoMemory>
    requires { geometry.now ≡ map.now.shape }
    ensures { OnOk result (CountsAlso map.now.shape map.now.graph (reserved_objects map.now.shape) count.old count.new) }
{
    for rank in 0..geometry.ranks() as u16 {
        count_reserved_on(count, geometry, map, rank)?;
    }
    Ok(())
}

// Counts the reserved objects of a rank.
fn count_reserved_on(
    count: &mut BlockCount,
    geometry: &Geometry,
    map: &MapGraph,
    rank: u16,
) -> Result<(), NoMemory>
    requires geometry { geometry.now ≡ map.now.shape }
    requires rank { rank < 64 }
    ensures { OnOk result (CountsAlso map.now.shape map.now.graph (λ r. if rank == r then reserved_objects map.now.shape r else []) count.old count.new) }
{
    for block in 0..1 + geometry.buckets() + geometry.slots() {
        count_object(count, geometry, map, ObjectName::Reserved(rank, block))?;
    }
    Ok(())
}

fn count_vertices(
    count: &mut BlockCount,
    geometry: &Geometry,
    map: &MapGraph,
) -> Result<(), NoMemory>
    requires { geometry.now ≡ map.now.shape }
    ensures { OnOk result (CountsAlso map.now.shape map.now.graph (vertex_objects map.now.shape map.now.graph.vertices) count.old count.new) }
{
    geometry.keeps_ranges();
    for (id, _vertex) in map.held_vertices() {
        count_object(count, geometry, map, ObjectName::Vertex(*id))?;
    }
    Ok(())
}

fn count_edges(count: &mut BlockCount, geometry: &Geometry, map: &MapGraph) -> Result<(), NoMemory>
    requires { geometry.now ≡ map.now.shape }
    ensures { OnOk result (CountsAlso map.now.shape map.now.graph (edge_objects map.now.shape map.now.graph.edges) count.old count.new) }
{
    for (key, edge) in map.held_edges() {
        count_edge(count, geometry, map, *key, edge)?;
    }
    Ok(())
}

// Counts the object of an edge, if it has one.
fn count_edge(
    count: &mut BlockCount,
    geometry: &Geometry,
    map: &MapGraph,
    key: EdgeKey,
    edge: &HeldEdge,
) -> Result<(), NoMemory>
    requires { geometry.now ≡ map.now.shape }
    ensures { OnOk result (CountsAlso map.now.shape map.now.graph (edge_objects map.now.shape ((key, edge.now) ∷ [])) count.old count.new) }
{
    geometry.keeps_ranges();
    if !is_heavy(edge) {
        return Ok(());
    }
    count_object(
        count,
        geometry,
        map,
        ObjectName::HeavyEdge(key.source(), key.ordinal()),
    )
}

// Counts an object on its rank.
fn count_object(
    count: &mut BlockCount,
    geometry: &Geometry,
    map: &MapGraph,
    object: ObjectName,
) -> Result<(), NoMemory>
    requires geometry { geometry.now ≡ map.now.shape }
    requires name { IsName object }
    requires rank { rank_in map.now.shape object < 64 }
    ensures { OnOk result (CountsAlso map.now.shape map.now.graph (λ rank. if rank_in map.now.shape object == rank then object_of object ∷ [] else []) count.old count.new) }
{
    let words = words_of(map, object)?;
    count.add(rank_of(geometry, object), blocks_of_words(geometry, words))
}

fn words_of(map: &MapGraph, object: ObjectName) -> Result<u64, NoMemory>
    requires { IsName object }
    ensures { IfOk result (λ words. words ≡ words_of map.now.shape map.now.graph (rank_in map.now.shape object) (object_of object)) }
{
    match map.object_words(object) {
        Ok(words) => Ok(words),
        Err(ModelRefused::NoMemory) => Err(NoMemory),
    }
}

fn is_heavy(edge: &HeldEdge) -> bool
    ensures { result ≡ is_heavy edge.now }
{
    edge.label_count() > 1 || edge.props().count() > 0
}
