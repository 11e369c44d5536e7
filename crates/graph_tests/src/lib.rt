//! Tests of what of a graph is spelled as words.
#![tactic(auto)]

#[cfg(test)]
mod holders;
