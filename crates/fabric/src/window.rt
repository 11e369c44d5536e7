ghost use Rattle.std.specs.Prelude.{◌≡◌, ◌<◌, ◌^◌, IfOk};
ghost use Rattle.rma_layout.specs.Words.{IsWord, number_of};
ghost use Rattle.window_rule.specs.RightsHold.{IsAlone};
ghost use Rattle.window_rule.specs.Opening.{first_view};
ghost use Rattle.window_rule.specs.Spares.{HasNone};
ghost use Rattle.fabric.specs.Window.{HasLists};

use crate::opening::first_words;
use crate::rank::{Rank, first_rights, no_spares};
use crate::rule::{Lawful, Opening};
use crate::view::View;
use atomic_table::Table;
use gdi_kinds::NoMemory;
use object_words::Law;
use rma_layout::{Geometry, Word};
use std::alloc::Global;
use std::marker::Model;

/// The words that ranks share: locks, lengths, links, stamps and data of all blocks, the heads of the free lists, the
/// gate and the commit word. Ranks change it through a `&`, one word a step. Between any two steps its words and what the
/// ranks know are lawful: the invariant is `IsLawful`.
///
/// A contract sees which window it is, as `id`, and its shape.
#[derive(Drop)]
pub struct Window<L: Law> {
    pub(crate) table: Table<(), View<L::Note>, Opening, Lawful<L>, Global>,
    geometry: Geometry,
}

impl<L: Law> Model for Window<L> {
    ghost use Rattle.fabric.specs.Window.{WindowModel, IsSized};

    ghost Value = { WindowModel };

    ghost view = { λ window. record { id = window.table.shared.table_id; shape = window.geometry } };

    ghost invariant = { λ window. IsSized window.table.shared.table_id window.table.shared.key.geometry window.geometry };
}

impl<L: Law> Window<L> {
    /// A window of this geometry with no rank but the one that comes with it, which stands for every rank and may commit
    /// 2^62 times.
    ///
    /// Every object is empty, no object is locked, and the history is empty. The free list of each rank has the blocks
    /// that are not reserved, in rising order.
    pub fn new(alloc: Global, geometry: Geometry) -> Result<(Window<L>, Rank<L>), NoMemory>
        ensures shape { IfOk result (λ made. made.0.shape ≡ geometry) }
        ensures together { IfOk result (λ made. made.1.window ≡ made.0) }
        ensures view { IfOk result (λ made. made.1.view ≡ first_view geometry 0) }
        ensures lists { IfOk result (λ made. HasLists geometry 0 made.1.view) }
        ensures spares { IfOk result (λ made. HasNone made.1.spares) }
        ensures alone { IfOk result (λ made. IsAlone geometry made.1.view) }
    {
        Self::with_tags(alloc, geometry, 0)
    }

    /// A new window as by `new`, in which the head of every rank has this tag. So what happens at the last tag can be seen.
    pub fn with_tags(
        alloc: Global,
        geometry: Geometry,
        tag: u64,
    ) -> Result<(Window<L>, Rank<L>), NoMemory>
        requires { tag < 2 ^ 44 }
        ensures shape { IfOk result (λ made. made.0.shape ≡ geometry) }
        ensures together { IfOk result (λ made. made.1.window ≡ made.0) }
        ensures view { IfOk result (λ made. made.1.view ≡ first_view geometry tag) }
        ensures lists { IfOk result (λ made. HasLists geometry tag made.1.view) }
        ensures spares { IfOk result (λ made. HasNone made.1.spares) }
        ensures alone { IfOk result (λ made. IsAlone geometry made.1.view) }
    {
        geometry.keeps_ranges();
        let words = first_words(alloc, &geometry, tag)?;
        let (table, seat) = Table::of_words(alloc, words.as_slice(), &Opening { geometry, tag })?;
        let rights = first_rights(alloc, geometry.ranks())?;
        let rank = Rank::seated(seat, geometry, rights, no_spares(alloc)?, no_spares(alloc)?);
        Ok((Window { table, geometry }, rank))
    }

    /// The geometry that it was made with.
    pub fn geometry(&self) -> Geometry
        ensures { result ≡ self.now.shape }
    {
        self.geometry
    }

    /// The number of a word in its table.
    pub(crate) fn number(&self, word: Word) -> usize
        requires { IsWord self.now.shape word }
        ensures { result ≡ number_of self.now.shape word }
    {
        self.geometry.number(word) as usize
    }
}
