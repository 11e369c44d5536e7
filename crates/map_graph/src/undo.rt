use graph_parts::{HeldEdge, HeldVertex};

/// What was there before a call: a step of a journal.
#[derive(Debug, Drop)]
pub enum Undo {
    /// So many labels and types.
    Names(usize, usize),
    /// A vertex by its identifier, or none.
    Vertex(u64, Option<HeldVertex>),
    /// An edge by its source and ordinal, or none.
    Edge(u64, u64, Option<HeldEdge>),
}
