//! Two ranks are made one.
ghost use Rattle.std.specs.Prelude.{◌≡◌, ◌≢◌, ◌≤◌, ◌<◌, ◌^◌, ℕ, [], get_or, length};
ghost use Rattle.rma_layout.specs.Placement.{IsBlock, Place};
ghost use Rattle.window_rule.specs.Spares.{HasSpares, SpareEnds};
ghost use Rattle.window_rule.specs.HistoryHolds.{AreHeard, past_of};
ghost use Rattle.window_rule.specs.Partition.{places_of, times};
ghost use Rattle.window_rule.specs.Pool.{MayLink, linked};
ghost use Rattle.window_rule.specs.Splits.{IsIdle, joined, settled};
ghost use Rattle.fabric.specs.Joins.{AreTogether, chained_view, one_or};
ghost use Rattle.fabric.specs.Window.{AreRights};

use crate::plays::Joint;
use crate::rank::rights::add_rights;
use crate::rank::words::store_by;
use crate::rank::{MOST_RANKS, Rank};
use crate::view::View;
use crate::window::Window;
use atomic_table::Seat;
use object_words::Law;
use rma_layout::{DPtr, Word};
use std::marker::Brand;

impl<L: Law> Rank<L> {
    /// Takes in another rank of the window, which has no lock and no place in the gate: its rights, its commits, its own
    /// blocks and its spares.
    ///
    /// On each home rank where the other has spares, the last of these is linked to its own first one. So the other's
    /// come before its own.
    pub fn join(&mut self, window: &Window<L>, other: Rank<L>)
        requires window { (self.old.window ≡ window.now) × (other.window ≡ window.now) }
        requires idle { IsIdle other.view }
        ensures window { self.new.window ≡ self.old.window }
        ensures spares { AreTogether self.old.spares other.spares self.new.spares }
        ensures view { let theirs = chained_view self.old.spares other.spares window.now.shape.ranks other.view in
            self.new.view ≡ settled (joined self.old.view theirs) }
        ensures heard { AreHeard (past_of (joined self.old.view other.view)) }
        ensures once { (block : Place) → times block (places_of (joined self.old.view other.view).private) ≤ 1 }
    {
        window.geometry().keeps_ranges();
        let Rank {
            mut seat,
            geometry: _,
            rights,
            firsts,
            lasts,
        } = other;
        chain_spares(window, &mut seat, &self.firsts, &firsts, &lasts);
        self.take_in(window, seat, &rights);
        self.load::<Brand>(window, Word::Commit);
        self.take_spares(&firsts, &lasts);
    }

    /// Takes in the view of a seat.
    fn take_in(&mut self, window: &Window<L>, other: Seat<(), View<L::Note>>, rights: &[bool])
        requires window { (self.old.window ≡ window.now) × (other.table_id ≡ window.now.id) }
        requires idle { (other.me.1 ≡ []) × IsIdle other.me.0 }
        requires rights { AreRights rights.now other.me.0.rights }
        ensures window { self.new.window ≡ self.old.window }
        ensures spares { self.new.spares ≡ self.old.spares }
        ensures view { self.new.view ≡ joined self.old.view other.me.0 }
    {
        window
            .table
            .shared
            .join_seat::<Joint>(&mut self.seat, other);
        add_rights(self.rights.as_mut_slice(), rights);
    }

    /// The blocks that were another's spares are its own spares.
    fn take_spares(&mut self, firsts: &[u64], lasts: &[u64])
        requires firsts { length firsts.now ≡ 64 }
        requires lasts { length lasts.now ≡ 64 }
        requires has { (both : SpareEnds) → AreTogether self.old.spares (record { firsts = firsts.now; lasts = lasts.now }) both →
            HasSpares self.old.window.shape self.old.view.private both }
        ensures window { self.new.window ≡ self.old.window }
        ensures view { self.new.view ≡ self.old.view }
        ensures spares { AreTogether self.old.spares (record { firsts = firsts.now; lasts = lasts.now }) self.new.spares }
    {
        put_before(self.firsts.as_mut_slice(), firsts);
        put_behind(self.lasts.as_mut_slice(), lasts);
    }
}

/// Where the other has a number, it goes before what stands there.
fn put_before(numbers: &mut [u64], others: &[u64])
    requires numbers { length numbers.old ≡ 64 }
    requires others { length others.now ≡ 64 }
    ensures { (home : ℕ) → home < 64 → get_or numbers.new home 0 ≡ one_or (get_or others.now home 0) (get_or numbers.old home 0) }
{
    for home in 0..MOST_RANKS {
        if others[home] != 0 {
            numbers[home] = others[home];
        }
    }
}

/// Where there is no number, the other's goes there.
fn put_behind(numbers: &mut [u64], others: &[u64])
    requires numbers { length numbers.old ≡ 64 }
    requires others { length others.now ≡ 64 }
    ensures { (home : ℕ) → home < 64 → get_or numbers.new home 0 ≡ one_or (get_or numbers.old home 0) (get_or others.now home 0) }
{
    for home in 0..MOST_RANKS {
        if numbers[home] == 0 {
            numbers[home] = others[home];
        }
    }
}

/// Links the last spare of a seat on each home rank to the first of another rank.
fn chain_spares<L: Law>(
    window: &Window<L>,
    seat: &mut Seat<(), View<L::Note>>,
    mine: &[u64],
    firsts: &[u64],
    lasts: &[u64],
)
    requires table { seat.old.table_id ≡ window.now.id }
    requires slots { seat.old.me.1 ≡ [] }
    requires live { seat.old.me.0.rights ≢ [] }
    requires mine { length mine.now ≡ 64 }
    requires small { (home : ℕ) → home < 64 → get_or mine.now home 0 < 2 ^ 20 }
    requires has { HasSpares window.now.shape seat.old.me.0.private (record { firsts = firsts.now; lasts = lasts.now }) }
    ensures table { seat.new.table_id ≡ seat.old.table_id }
    ensures slots { seat.new.me.1 ≡ [] }
    ensures view { seat.new.me.0 ≡ chained_view (record { firsts = mine.now; lasts = [] })
        (record { firsts = firsts.now; lasts = lasts.now }) window.now.shape.ranks seat.old.me.0 }
{
    window.geometry().keeps_ranges();
    for home in 0..window.geometry().ranks() {
        if firsts[home as usize] != 0 {
            let last = DPtr::new(home as u16, lasts[home as usize]);
            link_seat(window, seat, last, mine[home as usize]);
        }
    }
}

/// Stores the free-list word of a block of a seat's own.
fn link_seat<L: Law>(window: &Window<L>, seat: &mut Seat<(), View<L::Note>>, b: DPtr, next: u64)
    requires table { seat.old.table_id ≡ window.now.id }
    requires live { seat.old.me.0.rights ≢ [] }
    requires block { IsBlock window.now.shape b }
    requires may { MayLink seat.old.me.0 b next }
    ensures table { seat.new.table_id ≡ seat.old.table_id }
    ensures slots { seat.new.me.1 ≡ seat.old.me.1 }
    ensures view { seat.new.me.0 ≡ linked b next seat.old.me.0 }
{
    store_by::<L, Brand>(window, seat, Word::FreeList(b), next);
}
