/// An edge between two vertices, by their identifiers. An undirected one is walked both ways.
#[derive(Clone, Copy, Debug, PartialEq, Eq)]
pub struct FlatEdge {
    pub source: u64,
    pub target: u64,
    pub undirected: bool,
}
