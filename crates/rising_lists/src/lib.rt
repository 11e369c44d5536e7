//! Lists of items that rise by their keys: definitions and lemmas, for whoever keeps such a list in order.
#![tactic(auto)]

mod laws;

pub use laws::one_item_more_or_less;
