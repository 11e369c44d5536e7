//! Blocks for the objects of a window: taken from free lists, and given back to them.
#![tactic(auto)]

mod counting;
mod draining;
mod giving;
mod refused;
mod taking;

pub use counting::free_count;
pub use draining::drain_spares;
pub use giving::give;
pub use refused::PoolRefused;
pub use taking::take;

/// After so many failed exchanges on a head a call gives up.
const MOST_EXCHANGES: u64 = 64;
