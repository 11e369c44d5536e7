//! Moving parts of transactions over a window: whole objects are loaded, and locks are left.
#![tactic(auto)]

mod held;
mod leaving;
mod loading;
mod noted;
mod rewriting;
mod storing;

pub use held::{HeldObjects, Mode};
pub use leaving::leave_all;
pub use loading::{Blocks, Loaded, chain_blocks, load, load_chain};
pub use noted::NotedChains;
pub use rewriting::rewrite;
