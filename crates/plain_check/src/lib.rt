//! From the texts of load files, of a script and of an output to whether the output is legal for them, on the plain graph.
#![tactic(auto)]

mod check_refused;
mod checker;
pub mod laws;

pub use check_refused::CheckRefused;
pub use checker::check_texts;
