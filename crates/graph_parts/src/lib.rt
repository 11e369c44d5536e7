//! Vertices, edges, properties and property types as the plain graph holds them, and counts by key.
#![tactic(auto)]

mod held_edge;
mod held_props;
mod held_type;
mod held_vertex;
mod tally;
mod value_rows;

pub use held_edge::HeldEdge;
pub use held_props::HeldProps;
pub use held_type::HeldType;
pub use held_vertex::HeldVertex;
pub use tally::Tally;
pub use value_rows::ValueRows;
