//! Load files: each becomes one transaction, or its first wrong record is told.
#![tactic(auto)]

mod column;
mod columns;
mod front;
mod header;
mod header_reader;
pub mod laws;
mod lead;
mod load_fault;
mod load_file;
mod load_refused;
mod loader;
mod owner;
mod pieces;
mod records;
mod row;
mod stop;
mod subject;
mod values;

pub use load_fault::LoadFault;
pub use load_file::LoadFile;
pub use load_refused::LoadRefused;
pub use loader::load_txn;
