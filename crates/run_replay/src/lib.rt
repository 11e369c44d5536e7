//! Whether what a run prints is legal, with the graphs of its history.
#![tactic(auto)]

mod replaying;
mod sight;
mod unlike;
mod verdict;
mod visit;
mod visits;

pub use replaying::replay;
pub use unlike::Unlike;
pub use verdict::first_illegal;

#[cfg(test)]
mod tests;
