//! What an object holds in one spelling, as a transaction finds it and changes it.
#![tactic(auto)]

mod calls;
mod change;
mod holder;

pub use calls::look::look;
pub use calls::put::put;
pub use calls::settle::settle;
pub use change::Change;
pub use holder::Holder;
