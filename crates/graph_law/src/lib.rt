//! The law of a graph's entries, and what a call does on a store of a graph.
#![tactic(auto)]

mod law;
mod laws;
mod told;

pub use law::{GraphLaw, Noted};
pub use laws::knowledge_stays;
pub use told::Told;
