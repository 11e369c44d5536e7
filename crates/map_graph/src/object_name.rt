/// An object of a graph, by its name.
#[derive(Clone, Copy, Debug, PartialEq, Eq, PartialOrd, Ord)]
pub enum ObjectName {
    /// A reserved one, by its rank and its block there: the names, a bucket or an object of the index.
    Reserved(u16, u64),
    /// A vertex's, by its identifier.
    Vertex(u64),
    /// A heavy edge's, by its source and ordinal.
    HeavyEdge(u64, u64),
}
