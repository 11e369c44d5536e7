//! The outside as the database sees it: files that are read, and bytes that are written, with a count of faults.
#![tactic(auto)]

mod failed;
mod failing_calls;
mod folder_shelf;
mod mem_shelf;
mod mem_sink;
mod out_sink;
mod refused;
mod shelf;
mod sink;
mod whole;

pub use failed::Failed;
pub use folder_shelf::FolderShelf;
pub use mem_shelf::MemShelf;
pub use mem_sink::MemSink;
pub use out_sink::OutSink;
pub use refused::ReadRefused;
pub use shelf::Shelf;
pub use sink::Sink;
pub use whole::{read_all, write_all};
