use holder_codec::VertexHolder;
use object_words::Words;

/// The vertices at the two ends of an edge, as they are found or are to be.
#[derive(Debug, Drop)]
pub(crate) struct Ends {
    pub source: VertexHolder,
    /// There is none where the target is the source.
    pub target: Option<VertexHolder>,
}

/// The words of such ends.
#[derive(Debug, Drop)]
pub(crate) struct Spelling {
    pub source: Words,
    pub target: Option<Words>,
}
