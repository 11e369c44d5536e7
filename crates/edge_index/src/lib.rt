//! The names of edges in their order, and which edges each vertex has.
#![tactic(auto)]

mod edge_index;
mod edge_key;
mod key_set;
mod map_copy;

pub use edge_index::EdgeIndex;
pub use edge_key::EdgeKey;
pub use key_set::KeySet;
pub use map_copy::copy_of_map;
