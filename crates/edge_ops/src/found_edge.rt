use holder_codec::EdgeHolder;

/// An edge as it is found.
#[derive(Debug, Drop)]
pub struct FoundEdge {
    pub undirected: bool,
    /// Its ends, labels and properties, whether it has an object of its own or not.
    pub holder: EdgeHolder,
}
