//! From the texts of load files and of a script to the bytes that a run of them prints, on the plain graph.
#![tactic(auto)]

pub mod laws;
mod load;
mod load_reader;
mod loaded;
mod ready_load;
mod ready_workload;
mod run_refused;
mod runner;
mod texts;
mod workload;
mod workload_reader;

pub use load::Load;
pub use load_reader::read_load;
pub use loaded::{Loaded, finish_load, take_load};
pub use ready_load::ReadyLoad;
pub use ready_workload::ReadyWorkload;
pub use run_refused::RunRefused;
pub use runner::run_texts;
pub use texts::Texts;
pub use workload::Workload;
pub use workload_reader::read_workload;
