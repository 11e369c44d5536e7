ghost use Rattle.std.specs.Prelude.{◌≡◌, ◌<◌, ◌^◌, [], length, IfOk, Some};
ghost use Rattle.object_words.specs.Contents.{Agrees};
ghost use Rattle.object_words.specs.Entries.{Entry, HasMaps, store_after};
ghost use Rattle.object_store.specs.Ledger.{IsHistory, opened, account_with};

use crate::rule::{Account, Counts, Look, Place, Placed};
use crate::transaction::Transaction;
use atomic_table::{Seat, Table};
use gdi_kinds::NoMemory;
use object_words::{Carries, Law};
use rma_layout::Geometry;
use std::alloc::Global;

/// The history of a plain store. Of it only one word is kept, which counts its entries.
#[derive(Drop)]
pub(crate) struct Ledger<L: Law> {
    table: Table<(), Account<L::Note>, Geometry, Counts<L>, Global>,
    seat: Seat<(), Account<L::Note>>,
    ghost same_table: { seat.table_id ≡ table.shared.table_id },
    ghost one_word: { table.shared.table_id.words ≡ 1 },
    ghost first_seat: { seat.id ≡ 0 },
    ghost no_slots: { seat.me.1 ≡ [] },
}

impl<L: Law> Ledger<L> {
    /// An empty history.
    pub(crate) fn new(alloc: Global, geometry: Geometry) -> Result<Ledger<L>, NoMemory>
        ensures { IfOk result (λ ledger. ledger.seat.me.0 ≡ opened geometry) }
    {
        let (table, seat) = Table::of_words(alloc, &[0], &geometry)?;
        Ok(Ledger { table, seat })
    }

    /// The number of entries, by a look at the word.
    pub(crate) fn look(&mut self) -> u64
        ensures same { self.new.seat.me.0 ≡ self.old.seat.me.0 }
        ensures table { self.new.seat.table_id ≡ self.old.seat.table_id }
        ensures number { result ≡ length self.old.seat.me.0.seen }
        ensures history { IsHistory L.fits self.new.seat.me.0 }
    {
        let table = &self.table;
        table.shared.load::<Look<L>>(&mut self.seat, 0)
    }

    /// Places the entry of a transaction, by one addition to the word, and answers its number. The arguments make the
    /// entry, and are for the proof alone.
    pub(crate) fn place<C: Carries<L>, E: Placed<L::Note>>(
        &mut self,
        geometry: Geometry,
        txn: &Transaction,
        note: &C,
    ) -> u64
        requires room { length self.old.seat.me.0.seen < 2 ^ 62 }
        requires said { (entry : Entry L.Note) × (E.entry ≡ Some entry) × (L.fits self.old.seat.me.0.shape entry)
            × HasMaps entry × Agrees entry.reads (store_after self.old.seat.me.0.seen) }
        ensures placed { (entry : Entry L.Note) → E.entry ≡ Some entry → self.new.seat.me.0 ≡ account_with self.old.seat.me.0 entry }
        ensures table { self.new.seat.table_id ≡ self.old.seat.table_id }
        ensures number { result ≡ length self.old.seat.me.0.seen }
        ensures history { IsHistory L.fits self.new.seat.me.0 }
    {
        let table = &self.table;
        table.shared.fetch_add::<Place<L, E>>(&mut self.seat, 0, 1)
    }
}
