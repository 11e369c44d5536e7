use crate::{Duplicate, Name, NoMemory, Value};
use std::alloc::Global;

/// How a constraint compares a stored value with a constant.
#[derive(Clone, Copy, Debug, PartialEq, Eq)]
pub enum Op {
    Eq,
    Ne,
    Lt,
    Le,
    Gt,
    Ge,
}

/// One condition of a constraint.
#[derive(Debug, Drop)]
pub enum Atom {
    /// The label is there.
    Has(Name),
    /// The label isn't there.
    Lacks(Name),
    /// The property is there, and compares so with the constant.
    Prop(Name, Op, Value),
}

impl Duplicate for Atom {
    fn copy(&self, alloc: Global) -> Result<Atom, NoMemory> {
        match self {
            Atom::Has(label) => Ok(Atom::Has(*label)),
            Atom::Lacks(label) => Ok(Atom::Lacks(*label)),
            Atom::Prop(name, op, value) => Ok(Atom::Prop(*name, *op, value.copy(alloc)?)),
        }
    }
}
