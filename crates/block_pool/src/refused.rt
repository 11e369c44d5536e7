/// Why no block was taken.
#[derive(Clone, Copy, Debug, PartialEq, Eq, Drop)]
pub enum PoolRefused {
    /// The free list behind this head is empty, and there is no spare.
    Empty { head: u64 },
    /// 64 exchanges failed. In the last this head was loaded, and that one found.
    PoolBusy { loaded: u64, seen: u64 },
    /// This head has the last tag. No exchange is made on it until the tag is renewed.
    Worn { head: u64 },
}
