//! The window that ranks share, and their steps on its words.
#![tactic(auto)]

pub mod examples;
mod opening;
mod plays;
mod rank;
mod rule;
mod view;
mod window;

pub use rank::{Enters, Rank};
pub use window::Window;
