//! Whether replies are the same.
#![tactic(auto)]

mod lists;
mod replies;
mod same;
mod values;

pub use same::Same;

#[cfg(test)]
mod tests;
