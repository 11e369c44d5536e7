//! How large a window is, where things are in it, and which number each of its words has.
#![tactic(auto)]

mod dptr;
mod geometry;
mod laws;
mod limits;
mod word;

pub use dptr::DPtr;
pub use geometry::{BadGeometry, Geometry};
pub use laws::{
    in_range_or_refused, reserved_objects_differ, words_are_numbered, writes_change_one_word,
};
pub use limits::MOST_WORDS;
pub use word::Word;
