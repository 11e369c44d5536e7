//! The words of a command line, after the program's name: which command they ask for, or why they are none.
#![tactic(auto)]

mod command;
mod matching;
mod reading;
mod short;
mod sizes;
mod source;
mod sources;
mod usage;
mod values;

pub use command::{Command, CommandName};
pub use reading::read_words;
pub use source::Source;
pub use usage::{UsageKind, WordsRefused};
