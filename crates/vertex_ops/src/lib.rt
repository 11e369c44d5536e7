//! A vertex in its object: its labels and properties, as a transaction finds and changes them.
#![tactic(auto)]

mod calls;
mod labels;
mod laws;
mod opened;
mod props;

pub use calls::clear::clear;
pub use calls::clear_label::clear_label;
pub use calls::clear_prop::clear_prop;
pub use calls::keep::keep;
pub use calls::load::load;
pub use calls::make::make;
pub use calls::set_label::set_label;
pub use calls::set_prop::set_prop;
pub use laws::vertices_are_known;
