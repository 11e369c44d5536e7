//! Drills that are run: from a size and a seed to the lines that tell of the graph.
#![tactic(auto)]

mod geometry;
mod runner;
mod summary;

pub use geometry::drill_geometry;
pub use runner::run_drill;

#[cfg(test)]
mod tests;
