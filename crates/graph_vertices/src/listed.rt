ghost use Rattle.std.specs.Prelude.{◌≡◌, length, map, IfOk};
ghost use Rattle.std.specs.List.{filter};
ghost use Rattle.graph_model.specs.Maps.{set_of};
ghost use Rattle.edge_ops.specs.Lines.{is_listed};

use gdi_kinds::{Dir, NoMemory, NumList};
use holder_codec::EdgeRecord;
use std::alloc::Global;
use std::collections::BTreeSet;

/// How many ends of edges a vertex has in a direction.
pub(crate) fn degree_of(edges: &[EdgeRecord], dir: Dir) -> usize
    ensures { result ≡ length (filter (is_listed dir) edges.now) }
{
    edges.iter().filter(|edge| is_listed(edge, dir)).count()
}

/// The distinct vertices at the other ends of a vertex's edges in a direction, rising.
pub(crate) fn ends_of(alloc: Global, edges: &[EdgeRecord], dir: Dir) -> Result<NumList, NoMemory>
    ensures { IfOk result (λ ids. ids ≡ set_of (map (λ edge. edge.other) (filter (is_listed dir) edges.now))) }
{
    let mut ends = BTreeSet::new(alloc);
    let mut left = edges.len();
    while left > 0 {
        left -= 1;
        let edge = &edges[left];
        if is_listed(edge, dir) {
            ends.insert(edge.other)?;
        }
    }
    Ok(NumList::from_vec(ends.iter().copied().collect(alloc)?))
}

fn is_listed(edge: &EdgeRecord, dir: Dir) -> bool
    ensures { result ≡ is_listed dir edge.now }
{
    match dir {
        Dir::Outward => !edge.undirected && !edge.inward,
        Dir::Inward => !edge.undirected && edge.inward,
        Dir::Undirected => edge.undirected,
        Dir::Either => true,
    }
}
