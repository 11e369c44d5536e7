//! Lock and gate words as counts, and when a word stands in the way of a want.
#![tactic(auto)]

mod conflict;
mod laws;
mod want;

pub use conflict::conflicts;
pub use laws::conflicts_by_counts;
pub use want::Want;

/// The mark in a lock word: its object is one view's alone. The bits below count shares.
pub const MARK: u64 = 1 << 32;

/// A whole place in a gate word. The bits below count writers' places.
pub const WHOLE: u64 = 1 << 32;
