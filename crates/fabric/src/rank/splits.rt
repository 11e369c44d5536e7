//! A rank is split in two.
ghost use Rattle.std.specs.Prelude.{◌≡◌, ◌<◌, [], IfOk, MatchResult};
ghost use Rattle.window_rule.specs.Spares.{HasNone};
ghost use Rattle.window_rule.specs.Splits.{MaySplit, parted, remaining};

use crate::plays::{Cut, Cutting};
use crate::rank::{Rank, no_spares};
use crate::view::View;
use crate::window::Window;
use atomic_table::Seat;
use gdi_kinds::NoMemory;
use object_words::Law;
use std::alloc::Global;
use std::marker::Brand;

impl<L: Law> Rank<L> {
    /// Gives up one of its rights, and so many of its commits, to a new rank, which has seen the same history. Its spares
    /// stay.
    ///
    /// It is refused for want of memory alone, and is then as it was.
    pub fn split(
        &mut self,
        window: &Window<L>,
        r: u16,
        commits: u64,
        alloc: Global,
    ) -> Result<Rank<L>, NoMemory>
        requires window { self.old.window ≡ window.now }
        requires may { MaySplit self.old.view r commits }
        ensures window { self.new.window ≡ self.old.window }
        ensures spares { self.new.spares ≡ self.old.spares }
        ensures left { MatchResult result (λ _. self.new.view ≡ remaining r commits self.old.view)
            (λ _. self.new.view ≡ self.old.view) }
        ensures right { IfOk result (λ rank. (rank.window ≡ self.old.window) ×
            (rank.view ≡ parted r commits self.old.view) × HasNone rank.spares) }
    {
        let rights = self.one_right(alloc, r)?;
        let firsts = no_spares(alloc)?;
        let lasts = no_spares(alloc)?;
        let seat = self.cut::<Brand>(window, r, commits);
        Ok(Rank::seated(seat, window.geometry(), rights, firsts, lasts))
    }

    /// The seat of the new rank.
    fn cut<T: Cutting>(
        &mut self,
        window: &Window<L>,
        r: u16,
        commits: u64,
    ) -> Seat<(), View<L::Note>>
        requires window { self.old.window ≡ window.now }
        requires picked { (T.rank ≡ r) × (T.commits ≡ commits) }
        requires may { MaySplit self.old.view r commits }
        ensures window { self.new.window ≡ self.old.window }
        ensures table { result.table_id ≡ self.old.window.id }
        ensures spares { self.new.spares ≡ self.old.spares }
        ensures left { self.new.view ≡ remaining r commits self.old.view }
        ensures right { result.me ≡ (parted r commits self.old.view, []) }
    {
        let _commits = commits;
        let seat = window.table.shared.split_seat::<Cut<T>>(&mut self.seat);
        self.rights[r as usize] = false;
        seat
    }
}
