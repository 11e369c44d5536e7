//! Scripts as texts, both ways.
#![tactic(auto)]

mod bytes;
mod call_printer;
mod call_reader;
pub mod laws;
mod line_reader;
mod place;
mod script_printer;
mod script_reader;
mod step;
mod stop;
mod verb;

pub use script_printer::print_script;
pub use script_reader::{ScriptRefused, read_script};
