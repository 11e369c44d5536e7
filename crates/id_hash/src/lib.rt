//! Which object holds the vertex of an identifier: the buckets of a store, as a transaction finds and changes them.
#![tactic(auto)]

mod bucket;
mod calls;
mod laws;
#[cfg(test)]
mod tests;

pub use calls::add::add;
pub use calls::find::find;
pub use calls::remove::remove;
pub use calls::room::room;
pub use laws::{knowledge_stays, some_vertices_are_all};
