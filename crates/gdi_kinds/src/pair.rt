use crate::{Duplicate, NoMemory};
use std::alloc::Global;

/// An identifier with a number: a level, or the size of a component.
#[derive(Clone, Copy, Debug, PartialEq, Eq)]
pub struct Pair {
    pub id: u64,
    pub number: u64,
}

impl Duplicate for Pair {
    fn copy(&self, _alloc: Global) -> Result<Pair, NoMemory> {
        Ok(*self)
    }
}
