use gdi_kinds::{Duplicate, Kind, Name, NoMemory};
use std::alloc::Global;

/// The column of a property: its type.
#[derive(Clone, Copy, Debug)]
pub(crate) struct Column {
    pub(crate) name: Name,
    pub(crate) kind: Kind,
    /// Whether the type is marked, so that a field may have many values.
    pub(crate) many: bool,
}

impl Duplicate for Column {
    fn copy(&self, _alloc: Global) -> Result<Column, NoMemory> {
        Ok(*self)
    }
}
