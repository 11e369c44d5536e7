//! The operations on one word, each once. What a call tells is picked by the call.
ghost use Rattle.std.specs.Prelude.{◌≡◌, ◌≢◌, [], ℕ, ◌+◌, ◌-◌, ◌%◌, ◌^◌, ◌==◌};
ghost use prog.Atomic.{either};
ghost use Rattle.rma_layout.specs.Words.{IsWord};
ghost use Rattle.window_rule.specs.View.{View as ViewModel};
ghost use Rattle.window_rule.specs.Permits.{Permits};
ghost use Rattle.window_rule.specs.Trails.{SparesStay};

use crate::plays::{Step, Telling};
use crate::rank::Rank;
use crate::view::View;
use crate::window::Window;
use atomic_table::Seat;
use object_words::Law;
use rma_layout::Word;

impl<L: Law> Rank<L> {
    /// Loads a word.
    pub(super) fn load<T: Telling<L::Note>>(&mut self, window: &Window<L>, word: Word) -> u64
        requires window { self.old.window ≡ window.now }
        requires word { IsWord window.now.shape word }
        requires permits { Permits L.fits window.now.shape word (λ found. found) self.old.view (T.told self.old.view) }
        requires spares { (found : ℕ) (after : ViewModel L.Note) → T.told self.old.view found after →
            SparesStay window.now.shape self.old.spares self.old.view after }
        ensures window { self.new.window ≡ self.old.window }
        ensures spares { self.new.spares ≡ self.old.spares }
        ensures told { T.told self.old.view result self.new.view }
    {
        let number = window.number(word);
        window.table.shared.load::<Step<T>>(&mut self.seat, number)
    }

    /// Stores a word.
    pub(super) fn store<T: Telling<L::Note>>(&mut self, window: &Window<L>, word: Word, new: u64)
        requires window { self.old.window ≡ window.now }
        requires word { IsWord window.now.shape word }
        requires permits { Permits L.fits window.now.shape word (λ _. new) self.old.view (λ _. T.told self.old.view new) }
        requires spares { (after : ViewModel L.Note) → T.told self.old.view new after →
            SparesStay window.now.shape self.old.spares self.old.view after }
        ensures window { self.new.window ≡ self.old.window }
        ensures spares { self.new.spares ≡ self.old.spares }
        ensures told { T.told self.old.view new self.new.view }
    {
        let number = window.number(word);
        window
            .table
            .shared
            .store::<Step<T>>(&mut self.seat, number, new)
    }

    /// Adds to a word, and answers the word as it was.
    pub(super) fn fetch_add<T: Telling<L::Note>>(
        &mut self,
        window: &Window<L>,
        word: Word,
        k: u64,
    ) -> u64
        requires window { self.old.window ≡ window.now }
        requires word { IsWord window.now.shape word }
        requires permits { Permits L.fits window.now.shape word (λ found. (found + k) % 2 ^ 64) self.old.view (T.told self.old.view) }
        requires spares { (found : ℕ) (after : ViewModel L.Note) → T.told self.old.view found after →
            SparesStay window.now.shape self.old.spares self.old.view after }
        ensures window { self.new.window ≡ self.old.window }
        ensures spares { self.new.spares ≡ self.old.spares }
        ensures told { T.told self.old.view result self.new.view }
    {
        let number = window.number(word);
        window
            .table
            .shared
            .fetch_add::<Step<T>>(&mut self.seat, number, k)
    }

    /// Adds to a word, where what is told speaks of a value.
    pub(super) fn fetch_add_about<T: Telling<L::Note>, A>(
        &mut self,
        window: &Window<L>,
        word: Word,
        k: u64,
        about: &A,
    ) -> u64
        requires window { self.old.window ≡ window.now }
        requires word { IsWord window.now.shape word }
        requires permits { Permits L.fits window.now.shape word (λ found. (found + k) % 2 ^ 64) self.old.view (T.told self.old.view) }
        requires spares { (found : ℕ) (after : ViewModel L.Note) → T.told self.old.view found after →
            SparesStay window.now.shape self.old.spares self.old.view after }
        ensures window { self.new.window ≡ self.old.window }
        ensures spares { self.new.spares ≡ self.old.spares }
        ensures told { T.told self.old.view result self.new.view }
    {
        let _about = about;
        self.fetch_add::<T>(window, word, k)
    }

    /// Subtracts from a word, and answers the word as it was.
    pub(super) fn fetch_sub<T: Telling<L::Note>>(
        &mut self,
        window: &Window<L>,
        word: Word,
        k: u64,
    ) -> u64
        requires window { self.old.window ≡ window.now }
        requires word { IsWord window.now.shape word }
        requires permits { Permits L.fits window.now.shape word (λ found. (found + (2 ^ 64 - k)) % 2 ^ 64) self.old.view (T.told self.old.view) }
        requires spares { (found : ℕ) (after : ViewModel L.Note) → T.told self.old.view found after →
            SparesStay window.now.shape self.old.spares self.old.view after }
        ensures window { self.new.window ≡ self.old.window }
        ensures spares { self.new.spares ≡ self.old.spares }
        ensures told { T.told self.old.view result self.new.view }
    {
        let number = window.number(word);
        window
            .table
            .shared
            .fetch_sub::<Step<T>>(&mut self.seat, number, k)
    }

    /// Puts `new` where the word is `old`, and answers the word as it was.
    pub(super) fn compare_exchange<T: Telling<L::Note>>(
        &mut self,
        window: &Window<L>,
        word: Word,
        old: u64,
        new: u64,
    ) -> u64
        requires window { self.old.window ≡ window.now }
        requires word { IsWord window.now.shape word }
        requires permits { Permits L.fits window.now.shape word (λ found. either (found == old) new found) self.old.view (T.told self.old.view) }
        requires spares { (found : ℕ) (after : ViewModel L.Note) → T.told self.old.view found after →
            SparesStay window.now.shape self.old.spares self.old.view after }
        ensures window { self.new.window ≡ self.old.window }
        ensures spares { self.new.spares ≡ self.old.spares }
        ensures told { T.told self.old.view result self.new.view }
    {
        let number = window.number(word);
        window
            .table
            .shared
            .compare_exchange::<Step<T>>(&mut self.seat, number, old, new)
    }
}

/// Stores a word, by a seat that is no rank's.
pub(super) fn store_by<L: Law, T: Telling<L::Note>>(
    window: &Window<L>,
    seat: &mut Seat<(), View<L::Note>>,
    word: Word,
    new: u64,
)
    requires table { seat.old.table_id ≡ window.now.id }
    requires live { seat.old.me.0.rights ≢ [] }
    requires word { IsWord window.now.shape word }
    requires permits { Permits L.fits window.now.shape word (λ _. new) seat.old.me.0 (λ _. T.told seat.old.me.0 new) }
    ensures table { seat.new.table_id ≡ seat.old.table_id }
    ensures slots { seat.new.me.1 ≡ seat.old.me.1 }
    ensures told { T.told seat.old.me.0 new seat.new.me.0 }
{
    let number = window.number(word);
    window.table.shared.store::<Step<T>>(seat, number, new);
}
