//! A graph in ordered maps that does the sequential property graph's calls.
#![tactic(auto)]

mod edge_lines;
mod journal;
mod map_graph;
mod object_name;
mod refused;
mod shown;
mod undo;

pub use journal::Journal;
pub use map_graph::MapGraph;
pub use object_name::ObjectName;
pub use refused::ModelRefused;
pub use undo::Undo;
