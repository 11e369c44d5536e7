//! The names of labels and property types, and their numbers: the metadata of a store, as a transaction finds and changes
//! them.
#![tactic(auto)]

mod calls;
mod laws;
mod names;
mod prop_type;

pub use calls::add_label::add_label;
pub use calls::add_type::add_type;
pub use calls::label::label;
pub use calls::label_name::label_name;
pub use calls::prop::prop;
pub use calls::prop_name::prop_name;
pub use laws::{knowledge_stays, names_are_those_of_the_graph};
pub use prop_type::PropType;
