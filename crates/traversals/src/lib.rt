//! Questions to the whole graph, answered on a graph that is held as plain arrays.
#![tactic(auto)]

mod flat_edge;
mod flat_graph;
mod gathering;
mod label_rows;
mod labelled;
mod questions;
#[cfg(test)]
mod tests;

pub use flat_edge::FlatEdge;
pub use flat_graph::FlatGraph;
pub use label_rows::LabelRows;
