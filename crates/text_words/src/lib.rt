//! The words of a line, and the values, names and constraints that they spell.
#![tactic(auto)]

mod fields;
mod line_words;
mod lines;
mod number;
mod test_printer;
mod test_reader;
mod value_reader;
mod word_fields;
mod word_printer;
mod wrong;

pub use fields::{Field, Fields, read_fields};
pub use line_words::{after_closing, behind_word, cut, opening_of};
pub use lines::{first_line, position_of};
pub use number::number_of;
pub use test_printer::print_test;
pub use value_reader::{bool_of, int_of, value_of};
pub use word_printer::{dir_word, kind_word, print_name, print_number, print_value};
pub use wrong::Wrong;
