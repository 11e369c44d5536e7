//! The head word of a rank's free list, and the list behind it.
#![tactic(auto)]

mod head;
mod laws;

pub use head::{first, head_of, tag};
pub use laws::{found_again_is_unchanged, list_is_walked, pop_leaves_the_rest, push_comes_first};

/// The greatest tag of a head. A head with this tag is worn: no exchange is made on it.
pub const LAST_TAG: u64 = (1 << 44) - 1;
