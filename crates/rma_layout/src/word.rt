use crate::DPtr;

/// A word of the window. Each block has a lock word, a length word, a free-list word and a stamp word besides its data
/// words, and each rank has a head.
#[derive(Clone, Copy, Debug, PartialEq, Eq)]
pub enum Word {
    /// Who has locked the object whose first block this is.
    Lock(DPtr),
    /// The length in words of the object whose first block this is, 0 if there is none.
    Length(DPtr),
    /// The next block in a free list or in a chain of spares, 0 at the end.
    FreeList(DPtr),
    /// The stamp of the object whose first block this is. It is odd while the object is being changed.
    Stamp(DPtr),
    /// The data word of this number in the block, from 0. Word 0 links to the next block.
    Data(DPtr, u64),
    /// Where the free list of this rank begins.
    Head(u16),
    /// How many are inside that write, and that look at the whole graph.
    Gate,
    /// How many entries the history has.
    Commit,
}
