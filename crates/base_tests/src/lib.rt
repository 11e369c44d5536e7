//! Tests of the crates that stand lowest: kinds, layout, constraints, files, and words that count.
#![tactic(auto)]

#[cfg(test)]
mod blocks;
#[cfg(test)]
mod files;
#[cfg(test)]
mod kinds;
#[cfg(test)]
mod layout;
#[cfg(test)]
mod locks;
#[cfg(test)]
mod passing;
