ghost use Rattle.std.specs.Prelude.{◌≡◌, ◌<◌, ◌≤◌, IfOk, IsTrue, MatchOption, MatchResult, Some, None, length, slice_get};
ghost use Rattle.std.specs.List.{insert};
ghost use Rattle.holder_codec.specs.declared.edge_record.EdgeRecord.{EdgeRecord};
ghost use Rattle.holder_codec.specs.Edges.{RecordFits, is_record_before};
ghost use Rattle.holder_codec.specs.Order.{is_rising};
ghost use Rattle.holder_codec.specs.Vertex.{IsVertexHolder};
ghost use Rattle.edge_ops.specs.HeldEdges.{out_key};
ghost use Rattle.edge_ops.specs.Lines.{is_listed, line_of, lines_of};
ghost use Rattle.edge_ops.specs.Records.{key_of, record_for, with_record, without_record};

use gdi_kinds::{Dir, EdgeLine, EdgeList, NoMemory};
use holder_codec::{EdgeRecord, EdgeRecords, VertexHolder};
use std::alloc::Global;

/// The edges of a vertex as lines.
pub(crate) fn listed(alloc: Global, holder: &VertexHolder, dir: Dir) -> Result<EdgeList, NoMemory>
    ensures { IfOk result (λ lines. lines ≡ lines_of holder.now.id dir holder.now.edges) }
{
    let mut lines = EdgeList::new(alloc);
    for edge in holder.edges.as_slice() {
        if is_listed(edge, dir) {
            lines.push(line_of(holder.id, edge))?;
        }
    }
    Ok(lines)
}

fn is_listed(edge: &EdgeRecord, dir: Dir) -> bool
    ensures { result ≡ is_listed dir edge.now }
{
    match dir {
        Dir::Outward => !edge.undirected && !edge.inward,
        Dir::Inward => !edge.undirected && edge.inward,
        Dir::Undirected => edge.undirected,
        Dir::Either => true,
    }
}

fn line_of(id: u64, edge: &EdgeRecord) -> EdgeLine
    ensures { result ≡ line_of id edge.now }
{
    EdgeLine {
        inward: edge.inward && !edge.undirected,
        undirected: edge.undirected,
        source: if edge.inward { edge.other } else { id },
        ordinal: edge.ordinal,
        target: if edge.inward { id } else { edge.other },
    }
}

/// The record of an edge from a vertex, if there is one of this ordinal.
pub(crate) fn record_out(holder: &VertexHolder, ordinal: u64) -> Option<EdgeRecord>
    requires { IsVertexHolder holder.now }
    ensures found { result ≡ record_for holder.now.edges (out_key ordinal) }
    ensures fits { MatchOption result (Unit {0}) RecordFits }
{
    let edges = holder.edges.as_slice();
    match position_of(edges, (0, (0, ordinal))) {
        Ok(place) => Some(edges[place]),
        Err(_) => None,
    }
}

/// Records with another one, in its place. It replaces one of the same key.
pub(crate) fn with_record(edges: EdgeRecords, edge: EdgeRecord) -> Result<EdgeRecords, NoMemory>
    requires { IsTrue (is_rising is_record_before edges) }
    ensures { IfOk result (λ made. made ≡ with_record edge edges) }
{
    let place = position_of(edges.as_slice(), key_of(&edge));
    let mut edges = edges.into_vec();
    match place {
        Ok(place) => {
            let _replaced = edges.remove(place);
            edges.insert(place, edge)?;
            Ok(EdgeRecords::from_vec(edges))
        }
        Err(place) => {
            edges.insert(place, edge)?;
            Ok(EdgeRecords::from_vec(edges))
        }
    }
}

/// Records without that of a key.
pub(crate) fn without_record(edges: EdgeRecords, key: (u64, (u64, u64))) -> EdgeRecords
    requires { IsTrue (is_rising is_record_before edges) }
    ensures { result ≡ without_record key edges }
{
    let place = position_of(edges.as_slice(), key);
    match place {
        Ok(place) => {
            let mut edges = edges.into_vec();
            let _cut = edges.remove(place);
            EdgeRecords::from_vec(edges)
        }
        Err(_) => edges,
    }
}

/// Where the record of a key stands, or else where it would stand.
fn position_of(edges: &[EdgeRecord], key: (u64, (u64, u64))) -> Result<usize, usize>
    requires { IsTrue (is_rising is_record_before edges.now) }
    ensures within { MatchResult result (λ i. i < length edges.now) (λ i. i ≤ length edges.now) }
    ensures position { MatchResult result
        (λ i. (found : EdgeRecord) × (slice_get edges.now i ≡ Some found) × (record_for edges.now key ≡ Some found))
        (λ i. (i ≤ length edges.now) × (record_for edges.now key ≡ None)
        × ((one : EdgeRecord) → key_of one ≡ key → insert edges.now i one ≡ with_record one edges.now)) }
{
    edges.binary_search_by_key(&key, key_of)
}

/// Which end of the edge the vertex is, the source where it is the target, and the ordinal.
fn key_of(edge: &EdgeRecord) -> (u64, (u64, u64))
    ensures { result ≡ key_of edge.now }
{
    let source = if edge.inward { edge.other } else { 0 };
    (u64::from(edge.inward), (source, edge.ordinal))
}
