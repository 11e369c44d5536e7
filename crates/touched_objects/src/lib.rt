//! Which objects a step back changes, and what capacity counts of them.
#![tactic(auto)]

mod law;

pub use law::{
    needed_by_touched, other_objects_stay, steps_tell_of_objects, sums_differ_by_touched,
};
