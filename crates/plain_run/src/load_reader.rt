ghost use Rattle.std.specs.Prelude.{◌≡◌, true, None, IfOk, IfSome, OnOk, MatchResult};
ghost use Rattle.std.specs.Option.{option_map};
ghost use Rattle.graph_model.specs.WellFormed.{IsWellFormed};
ghost use Rattle.map_graph.specs.Plain.{Plain};
ghost use Rattle.plain_graph.specs.Counted.{IsCountOf};
ghost use Rattle.plain_run.specs.Loading.{IsLoad, IsReady, LoadsFile, behind, full_for};
ghost use Rattle.plain_run.specs.Running.{TellsBadLoad};
ghost use Rattle.plain_run.specs.Reading.{TellsBadFile};

use crate::ready_load::ReadyLoad;
use crate::{Load, RunRefused};
use bulk_load::{LoadFile, LoadRefused, load_txn};
use gdi_kinds::{NoMemory, Txn};
use map_graph::MapGraph;
use plain_graph::{BlockCount, PlainGraph, count_blocks};
use rma_layout::Geometry;
use std::alloc::Global;

/// The load that the files are. The file of the vertices stands on the empty graph, that of the edges on the graph behind
/// it. Whether ranks have blocks for it isn't asked: the graph on which the files are read is handed on where its blocks
/// show that there was room, so that nothing has to be done again on another.
///
/// `BadLoad` tells the first wrong record of the vertices, and that of the edges where the vertices' file is right or isn't
/// given. The one other refusal is `NoMemory`.
pub fn read_load(
    alloc: Global,
    geometry: Geometry,
    vertices: Option<&[u8]>,
    edges: Option<&[u8]>,
) -> Result<ReadyLoad, RunRefused>
    ensures { let vertex_file = option_map (λ bytes. bytes.now) vertices.entry in let edge_file = option_map (λ bytes. bytes.now) edges.entry in
        MatchResult result (λ ready. IsLoad geometry vertex_file edge_file ready.load × IsReady geometry ready.load ready.graph) (TellsBadLoad geometry vertex_file edge_file) }
{
    let mut graph = MapGraph::new(alloc, geometry);
    let first = count_blocks(&geometry, &graph)?;
    let vertices = read_file(LoadFile::Vertices, vertices, &mut graph)?;
    let behind_vertices = count_blocks(&geometry, &graph)?;
    let vertices_fit = has_room(&geometry, &first, &vertices, &behind_vertices)?;
    let edges = read_file(LoadFile::Edges, edges, &mut graph)?;
    let behind_edges = count_blocks(&geometry, &graph)?;
    let edges_fit = has_room(&geometry, &behind_vertices, &edges, &behind_edges)?;
    let graph = PlainGraph::of(alloc, geometry, graph, &behind_edges);
    Ok(ReadyLoad {
        load: Load { vertices, edges },
        graph: if_both(vertices_fit, edges_fit, graph),
    })
}

// The graph, where both files have room.
fn if_both(vertices_fit: bool, edges_fit: bool, graph: PlainGraph) -> Option<PlainGraph>
    ensures { IfSome result (λ handed. (vertices_fit ≡ true) × (edges_fit ≡ true) × (handed ≡ graph)) }
{
    if vertices_fit && edges_fit {
        return Some(graph);
    }
    None
}

// Whether each rank surely has room for a file's transaction, by the blocks before it and behind it.
fn has_room(
    geometry: &Geometry,
    before: &BlockCount,
    txn: &Option<Txn>,
    after: &BlockCount,
) -> Result<bool, NoMemory>
    ensures { IfOk result (λ room. (plain : Plain) → plain.shape ≡ geometry.now → room ≡ true → IsCountOf geometry.now plain.graph before.now
        → IsCountOf geometry.now (behind plain txn.now).graph after.now → full_for plain txn.now ≡ None) }
{
    match txn {
        Some(txn) => before.has_room_for(geometry, txn, after),
        None => Ok(true),
    }
}

// The transaction of a file, if it is given. It is done on `graph`.
fn read_file(
    file: LoadFile,
    bytes: Option<&[u8]>,
    graph: &mut MapGraph,
) -> Result<Option<Txn>, RunRefused>
    requires { IsWellFormed graph.old.graph }
    ensures loads { let given = option_map (λ bytes. bytes.now) bytes.entry in
        MatchResult result (LoadsFile file given graph.old) (TellsBadFile file given graph.old) }
    ensures graph { IfOk result (λ txn. graph.new ≡ behind graph.old txn) }
    ensures well_formed { OnOk result (IsWellFormed graph.new.graph) }
{
    let Some(bytes) = bytes else {
        return Ok(None);
    };
    match load_txn(file, bytes, graph) {
        Ok(txn) => Ok(Some(txn)),
        Err(LoadRefused::Bad { row, kind }) => Err(RunRefused::BadLoad { file, row, kind }),
        Err(LoadRefused::NoMemory) => Err(RunRefused::NoMemory),
    }
}
