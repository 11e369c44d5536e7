//! The calls that make labels and property types, on a store of a graph.
#![tactic(auto)]

mod calls;

pub use calls::new_label::new_label;
pub use calls::new_type::new_type;
