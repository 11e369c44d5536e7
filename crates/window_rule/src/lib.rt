//! What a window's words and its ranks' views are together: the invariant, and what each step makes of a view.
#![tactic(auto)]

mod laws;

pub use laws::{
    block_has_one_holder, content_is_of_history, history_is_legal, known_is_true, marks_exclude,
    writers_exclude,
};
