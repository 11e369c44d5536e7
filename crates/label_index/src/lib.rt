//! Which vertices have a label: the index of a store, as a transaction finds and changes it.
#![tactic(auto)]

mod calls;
mod laws;
mod listed;
mod slot;

pub use calls::add::add;
pub use calls::ids::ids;
pub use calls::remove::remove;
pub use laws::{index_is_that_of_the_graph, knowledge_stays};
