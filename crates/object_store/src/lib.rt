//! Transactions on objects: what every store promises, and a store that is a map.
#![tactic(auto)]

mod calls;
mod laws;
mod ledger;
mod objects;
mod phase;
mod plain_refused;
mod plain_store;
mod rule;
mod store;
mod transaction;
mod vacant;

pub use calls::give_up::give_up;
pub use laws::whole_store_is_a_map;
pub use objects::Objects;
pub use phase::Phase;
pub use plain_refused::PlainRefused;
pub use plain_store::PlainStore;
pub use store::Store;
