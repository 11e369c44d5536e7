ghost use Rattle.std.specs.Prelude.{◌≡◌, ◌≤◌, None, IfOk, MatchResult, length};
ghost use Rattle.std.specs.Option.{option_to_list};
ghost use Rattle.graph_model.specs.History.{load_entries};
ghost use Rattle.plain_run.specs.Loading.{HasLoaded, IsReady, behind, full_for, txns_of};
ghost use Rattle.plain_run.specs.Running.{TellsFull};

use crate::{Load, RunRefused};
use bulk_load::LoadFile;
use gdi_kinds::{NoMemory, Txn};
use map_graph::ModelRefused;
use plain_graph::{Ended, PlainGraph};
use rma_layout::Geometry;
use std::alloc::Global;

/// A graph behind a load, and how many entries the load made: its transactions that write.
#[derive(Debug, Drop)]
pub struct Loaded {
    pub graph: PlainGraph,
    pub entries: u64,
}

/// The graph behind a load.
///
/// `LoadFull` tells the rank that has too few blocks for the vertices, or for the edges where there is room for the
/// vertices. The one other refusal is `NoMemory`.
pub fn take_load(alloc: Global, geometry: Geometry, load: &Load) -> Result<Loaded, RunRefused>
    ensures { MatchResult result (HasLoaded geometry load.now) (TellsFull geometry load.now) }
{
    let mut graph = PlainGraph::new(alloc, geometry);
    if let Some(rank) = take_txn(&mut graph, &load.vertices)? {
        return Err(RunRefused::LoadFull {
            file: LoadFile::Vertices,
            rank,
        });
    }
    if let Some(rank) = take_txn(&mut graph, &load.edges)? {
        return Err(RunRefused::LoadFull {
            file: LoadFile::Edges,
            rank,
        });
    }
    let entries = entries_in(load);
    Ok(Loaded { graph, entries })
}

/// The graph behind a load that was read: the one that was handed on, or else that of `take_load`, with its refusals.
pub fn finish_load(
    alloc: Global,
    geometry: Geometry,
    load: &Load,
    graph: Option<PlainGraph>,
) -> Result<Loaded, RunRefused>
    requires { IsReady geometry load.now graph }
    ensures { MatchResult result (HasLoaded geometry load.now) (TellsFull geometry load.now) }
{
    match graph {
        Some(graph) => Ok(Loaded {
            graph,
            entries: entries_in(load),
        }),
        None => take_load(alloc, geometry, load),
    }
}

// Does a transaction, if there is one, on a graph; or answers the rank that has too few blocks for it.
fn take_txn(graph: &mut PlainGraph, txn: &Option<Txn>) -> Result<Option<u16>, NoMemory>
    ensures full { IfOk result (λ full. full ≡ full_for graph.old txn.now) }
    ensures graph { IfOk result (λ full. full ≡ None → graph.new ≡ behind graph.old txn.now) }
{
    let Some(txn) = txn else {
        return Ok(None);
    };
    match graph.execute(txn) {
        Ok(Ended::Done(_)) => Ok(None),
        Ok(Ended::Full(rank)) => Ok(Some(rank)),
        Err(ModelRefused::NoMemory) => Err(NoMemory),
    }
}

// How many entries a load makes.
fn entries_in(load: &Load) -> u64
    ensures { result ≡ length (load_entries (txns_of load.now)) }
{
    entries_of(&load.vertices) + entries_of(&load.edges)
}

// How many entries a file makes: one, if its transaction writes.
fn entries_of(txn: &Option<Txn>) -> u64
    ensures count { result ≡ length (load_entries (option_to_list txn.now)) }
    ensures within { result ≤ 1 }
{
    match txn {
        Some(txn) if txn.is_writing() => 1,
        _ => 0,
    }
}
