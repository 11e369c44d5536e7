//! What a step on the table tells.
ghost use Rattle.std.specs.Prelude.{ℕ};
ghost use Rattle.window_rule.specs.View.{View as ViewModel};
ghost use Rattle.window_rule.specs.Steps.{Tells};

use crate::view::View;
use atomic_table::{Join, Play, Split};
use std::marker::{Brand, PhantomData};

/// What a step tells: of the view before, the word found and the view after. It is known to proofs alone, and each call
/// picks it.
pub(crate) trait Telling<N> {
    ghost told: { ViewModel N → ℕ → ViewModel N → Type 0 };
}

impl<N> Telling<N> for Brand {
    ghost told = { λ _ _ _. Unit {0} };
}

/// A step that tells this.
pub(crate) struct Step<T> {
    of: PhantomData<T>,
}

impl<N, T: Telling<N>> Play<(), View<N>> for Step<T> {
    ghost then = { λ _. Tells T.told };
}

/// Which right and how many commits are given up at a split. They are known to proofs alone, and each call picks them.
pub(crate) trait Cutting {
    ghost rank: { ℕ };

    ghost commits: { ℕ };
}

impl Cutting for Brand {
    ghost rank = { 0 };

    ghost commits = { 0 };
}

/// A split of this right and these commits.
pub(crate) struct Cut<T> {
    of: PhantomData<T>,
}

impl<N, T: Cutting> Split<View<N>> for Cut<T> {
    ghost use Rattle.window_rule.specs.Splits.{parted, remaining};

    ghost left = { remaining T.rank T.commits };

    ghost right = { parted T.rank T.commits };
}

/// How two views are made one.
pub(crate) struct Joint;

impl<N> Join<View<N>> for Joint {
    ghost use Rattle.window_rule.specs.View.{spent};
    ghost use Rattle.window_rule.specs.Splits.{joined};

    ghost both = { joined };

    ghost spent = { spent };
}
