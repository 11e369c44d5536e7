//! The top call: from the words of a command line to the bytes of its output.
#![tactic(auto)]

mod check;
mod drilling;
mod reading;
mod refusals;
mod run;
mod status;
mod top;
mod words;

pub use command_words::UsageKind;
pub use status::{FileKind, Status};
pub use top::gdi_main;

#[cfg(test)]
mod tests;
