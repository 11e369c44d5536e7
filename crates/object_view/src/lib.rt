//! The objects of a graph: each has a place and words, the places are apart, and all else is empty.
#![tactic(auto)]

mod examples;
mod laws;

pub use examples::loops_are_represented;
pub use laws::{
    blocks_are_those_of_the_graph, changes_keep_the_view, growth_is_that_of_the_graph,
    view_says_the_same,
};
