//! Tests of transactions on objects.
#![tactic(auto)]

#[cfg(test)]
mod objects;
