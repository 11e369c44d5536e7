ghost use Rattle.std.specs.Prelude.{Option, None};
ghost use Rattle.object_words.specs.Entries.{Entry};

use atomic_table::{Play, TableRule};
use object_words::Law;
use rma_layout::Geometry;
use std::marker::{Brand, Model, PhantomData};

/// What the seat of a plain store knows: the history, and which of its entries are the store's own. It is known to
/// proofs alone, and no value of it is made.
pub struct Account<N> {
    of: PhantomData<N>,
}

impl<N> Model for Account<N> {
    ghost use Rattle.rma_layout.specs.Shape.{standard_shape};
    ghost use Rattle.object_store.specs.Ledger.{Account, opened};

    ghost Value = { Account N };

    ghost view = { λ _. opened standard_shape };
}

/// The rule of the one word of a plain store: it counts the history.
pub struct Counts<L> {
    of: PhantomData<L>,
}

impl<L: Law> TableRule<(), Account<L::Note>, Geometry> for Counts<L> {
    ghost use Rattle.object_store.specs.Ledger.{IsKept, opened};

    ghost holds = { λ _ state. IsKept L.fits state };

    ghost first = { λ shape. opened shape };
}

/// A step that looks at the word.
pub struct Look<L> {
    of: PhantomData<L>,
}

impl<L: Law> Play<(), Account<L::Note>> for Look<L> {
    ghost use Rattle.object_store.specs.Ledger.{Looks};

    ghost then = { λ _ before found after. Looks L.fits before found after };
}

/// The entry that a commit places. It is known to proofs alone, and each commit picks it.
pub trait Placed<N> {
    ghost entry: { Option (Entry N) };
}

impl<N> Placed<N> for Brand {
    ghost entry = { None };
}

/// A step that places an entry.
pub struct Place<L, E> {
    of: PhantomData<(L, E)>,
}

impl<L: Law, E: Placed<L::Note>> Play<(), Account<L::Note>> for Place<L, E> {
    ghost use Rattle.object_store.specs.Ledger.{Places};

    ghost then = { λ _ before found after. Places E.entry L.fits before found after };
}
