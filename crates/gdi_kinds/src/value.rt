use crate::{Duplicate, NoMemory, Text};
use std::alloc::Global;

/// What a property type's values are.
#[derive(Clone, Copy, Debug, PartialEq, Eq)]
pub enum Kind {
    Int,
    Bool,
    Text,
}

/// The value of a property.
#[derive(Debug, Drop)]
pub enum Value {
    Int(i64),
    Bool(bool),
    Text(Text),
}

impl Duplicate for Value {
    fn copy(&self, alloc: Global) -> Result<Value, NoMemory> {
        match self {
            Value::Int(int) => Ok(Value::Int(*int)),
            Value::Bool(bool) => Ok(Value::Bool(*bool)),
            Value::Text(text) => Ok(Value::Text(text.copy(alloc)?)),
        }
    }
}
