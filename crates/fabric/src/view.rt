use std::marker::{Model, PhantomData};

/// What a rank knows. It is known to proofs alone, and no value of it is made.
pub(crate) struct View<N> {
    of: PhantomData<N>,
}

impl<N> Model for View<N> {
    ghost use Rattle.window_rule.specs.View.{View, spent};

    ghost Value = { View N };

    ghost view = { λ _. spent };
}
