//! What walks over the steps of a graph reach: levels from a vertex, and components.
#![tactic(auto)]

mod answers;
mod flat_steps;
mod gather;
mod levels;
mod marks;
mod places;
mod spreading;
mod step_list;

pub use answers::{hood_of, levels_of, parts_of};
pub use flat_steps::FlatSteps;
pub use places::Places;
pub use step_list::StepList;
