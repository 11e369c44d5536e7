//! Transactions on objects over a window.
#![tactic(auto)]

mod committing;
mod ending;
mod locking;
mod making;
mod placing;
mod plan;
mod planning;
mod reading;
mod refused;
mod stamping;
mod storing;
mod txn;
mod window_store;
mod writing;

pub use refused::TxnRefused;
pub use window_store::WindowStore;
