//! Steps that lead a graph back to what it was before a call.
#![tactic(auto)]

mod law;

pub use law::calls_are_undone;
