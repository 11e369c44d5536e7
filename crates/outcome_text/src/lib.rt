//! The outcomes of a run as a text, both ways.
#![tactic(auto)]

mod item_readers;
mod items;
pub mod laws;
mod line_words;
mod output_printer;
mod output_reader;
mod reply_reader;
mod reply_word;
mod said;
mod said_reader;

pub use output_printer::print_outcomes;
pub use output_reader::{OutputRefused, read_outcomes};
