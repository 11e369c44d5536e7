//! Tests of the window: heads of free lists, the steps of ranks, blocks for objects, and transactions.
#![tactic(auto)]

#[cfg(test)]
mod heads;
#[cfg(test)]
mod pool;
#[cfg(test)]
mod steps;
#[cfg(test)]
mod sums;
#[cfg(test)]
mod txns;
