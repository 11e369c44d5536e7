use crate::view::View;
use atomic_table::TableRule;
use object_words::Law;
use rma_layout::Geometry;
use std::marker::PhantomData;

/// What a window's table begins with: its geometry, and the tag of every head.
#[derive(Clone, Copy, Drop)]
pub(crate) struct Opening {
    pub(crate) geometry: Geometry,
    pub(crate) tag: u64,
}

/// The rule of a window's table: the words and all views are lawful.
pub(crate) struct Lawful<L> {
    of: PhantomData<L>,
}

impl<L: Law> TableRule<(), View<L::Note>, Opening> for Lawful<L> {
    ghost use Rattle.window_rule.specs.Lawful.{IsRuled};
    ghost use Rattle.window_rule.specs.Opening.{first_view};

    ghost holds = { λ opening state. IsRuled L.fits opening.geometry state };

    ghost first = { λ opening. first_view opening.geometry opening.tag };
}
