//! The sequential property graph: what every call means.
#![tactic(auto)]

pub mod examples;
pub mod laws;
