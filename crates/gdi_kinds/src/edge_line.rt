use crate::{Duplicate, NoMemory};
use std::alloc::Global;

/// One end of an edge, as seen from the vertex at that end.
#[derive(Clone, Copy, Debug, PartialEq, Eq)]
pub struct EdgeLine {
    /// Whether the vertex is the target of a directed edge. A directed self loop has a line of either kind. It is false
    /// where the edge is undirected, at either end of it.
    pub inward: bool,
    /// Whether the edge is undirected. An undirected self loop has two lines, and they are equal.
    pub undirected: bool,
    pub source: u64,
    /// The number of the edge among those that its source has had, from 0.
    pub ordinal: u64,
    pub target: u64,
}

impl Duplicate for EdgeLine {
    fn copy(&self, _alloc: Global) -> Result<EdgeLine, NoMemory> {
        Ok(*self)
    }
}
