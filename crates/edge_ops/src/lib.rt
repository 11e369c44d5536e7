//! Edges in the objects of their ends, as a transaction finds and changes them.
#![tactic(auto)]

mod beside;
mod calls;
mod ends;
mod far_ends;
mod formed;
mod found_edge;
mod given;
mod laws;
mod new_edge;
mod opened;
mod own_object;
mod own_objects;
mod parted;
mod records;
mod settle_ends;
mod wanted;
mod without;

pub use calls::cut::cut;
pub use calls::cut_all::cut_all;
pub use calls::keep::keep;
pub use calls::lines::lines;
pub use calls::load::load;
pub use calls::make::make;
pub use found_edge::FoundEdge;
pub use laws::{edges_are_those_of_the_graph, lines_are_those_of_the_graph};
