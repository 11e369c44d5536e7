//! Drills: a load and a script that are made from two numbers.
#![tactic(auto)]

mod draws;
mod load;
mod script;
mod words;

pub use load::{all_edges, all_vertices, drill_load};
pub use script::drill_script;

#[cfg(test)]
mod tests;
