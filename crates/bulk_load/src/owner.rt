/// What a property is of.
#[derive(Clone, Copy, Debug, PartialEq, Eq)]
pub(crate) enum Owner {
    Vertex(u64),
    /// An edge by its source and its ordinal there.
    Edge(u64, u64),
}
