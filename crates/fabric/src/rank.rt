ghost use Rattle.std.specs.Prelude.{◌≡◌, ◌≢◌, [], IfOk};
ghost use Rattle.window_rule.specs.Spares.{AreNone, HasNone};
ghost use Rattle.fabric.specs.Window.{AreRights};

use crate::view::View;
use atomic_table::Seat;
use gdi_kinds::NoMemory;
use object_words::Law;
use rma_layout::Geometry;
use std::alloc::Global;
use std::marker::Model;

mod commits;
mod gate;
mod joins;
mod locks;
mod objects;
mod pool;
mod rights;
mod spares;
mod splits;
mod stamps;
mod truths;
mod words;

pub use commits::Enters;
pub(crate) use rights::first_rights;

/// One of those who share a window. It stands for one or more of the window's ranks, and makes all its steps itself: no
/// other rank's step changes what it knows.
///
/// A contract sees the window that it is of, as `window`, what it knows, as `view`, and the first and the last spare of
/// each home rank, as `spares`.
#[derive(Drop)]
pub struct Rank<L: Law> {
    seat: Seat<(), View<L::Note>>,
    geometry: Geometry,
    rights: Vec<bool>,
    firsts: Vec<u64>,
    lasts: Vec<u64>,
}

impl<L: Law> Model for Rank<L> {
    ghost use Rattle.fabric.specs.Window.{IsRank, RankModel};

    ghost Value = { RankModel L.Note };

    ghost view = { λ rank. record {
      window = record { id = rank.seat.table_id; shape = rank.geometry };
      view = rank.seat.me.0;
      spares = record { firsts = rank.firsts.items; lasts = rank.lasts.items };
    } };

    ghost invariant = { λ rank. IsRank rank.geometry rank.seat.me
        (record { firsts = rank.firsts.items; lasts = rank.lasts.items }) rank.rights.items };
}

/// How many ranks a window may have.
const MOST_RANKS: usize = 64;

/// A list with a place for each rank, which says that there is no spare.
pub(crate) fn no_spares(alloc: Global) -> Result<Vec<u64>, NoMemory>
    ensures { IfOk result (λ none. AreNone none.items) }
{
    Ok(vec![in alloc; 0; MOST_RANKS]?)
}

impl<L: Law> Rank<L> {
    /// The rank of a seat that has no blocks of its own.
    pub(crate) fn seated(
        seat: Seat<(), View<L::Note>>,
        geometry: Geometry,
        rights: Vec<bool>,
        firsts: Vec<u64>,
        lasts: Vec<u64>,
    ) -> Rank<L>
        requires slots { seat.me.1 ≡ [] }
        requires live { seat.me.0.rights ≢ [] }
        requires rights { AreRights rights.items seat.me.0.rights }
        requires firsts { AreNone firsts.items }
        requires lasts { AreNone lasts.items }
        ensures window { result.window ≡ record { id = seat.table_id; shape = geometry } }
        ensures view { result.view ≡ seat.me.0 }
        ensures spares { HasNone result.spares }
    {
        Rank {
            seat,
            geometry,
            rights,
            firsts,
            lasts,
        }
    }
}
