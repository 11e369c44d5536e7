//! Whether the labels and the properties of a vertex or an edge pass a constraint. No call takes memory.
#![tactic(auto)]

mod compare;
mod constraint;

pub use constraint::passes;
