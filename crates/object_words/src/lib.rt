//! The words of objects, and the history of what transactions read and wrote of them.
#![tactic(auto)]

mod blocks;
mod law;
mod laws;

pub use blocks::blocks_for;
use gdi_kinds::ListOf;
pub use law::{Carries, Law};
pub use laws::{contents_after_one_more, overlay_puts_over};

/// Words of 64 bits, as an object has them.
pub type Words = ListOf<u64>;
