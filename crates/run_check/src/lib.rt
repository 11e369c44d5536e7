//! Whether what a run prints is legal: which clause fails first, and where.
#![tactic(auto)]

mod clause;
mod fitting;
mod illegal;
mod laws;
mod numbering;
mod ordering;
mod place;
mod placing;

pub use clause::Clause;
pub use fitting::first_misfit;
pub use illegal::Illegal;
pub use laws::{
    early_ones_are_out_of_order, fitting_ones_rise, illegal_ones_are_not, misfits_dont_fit,
    misnumbered_ones_are_not,
};
pub use numbering::first_misnumbered;
pub use ordering::first_out_of_order;
pub use place::Place;
pub use placing::first_misplaced;

#[cfg(test)]
mod tests;
