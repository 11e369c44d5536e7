use crate::{Duplicate, Name, NoMemory, Value};
use std::alloc::Global;

/// A value of a property, with the name of its type.
#[derive(Debug, Drop)]
pub struct PropLine {
    pub name: Name,
    pub value: Value,
}

impl Duplicate for PropLine {
    fn copy(&self, alloc: Global) -> Result<PropLine, NoMemory> {
        Ok(PropLine {
            name: self.name,
            value: self.value.copy(alloc)?,
        })
    }
}
