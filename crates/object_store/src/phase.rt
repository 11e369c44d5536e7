/// Where a transaction stands.
#[derive(Clone, Copy, Debug, PartialEq, Eq)]
pub enum Phase {
    /// There is none.
    Idle,
    /// It was begun as one that doesn't write.
    Reading,
    /// It was begun as writing.
    Writing,
}
