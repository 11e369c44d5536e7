use crate::{Bytes, Duplicate, NoMemory};
use std::alloc::Global;

/// A file: its name and what it holds.
#[derive(Debug, Drop)]
pub struct NamedBytes {
    pub name: Bytes,
    pub bytes: Bytes,
}

impl Duplicate for NamedBytes {
    fn copy(&self, alloc: Global) -> Result<NamedBytes, NoMemory> {
        Ok(NamedBytes {
            name: self.name.copy(alloc)?,
            bytes: self.bytes.copy(alloc)?,
        })
    }
}
