//! The step on the commit word.
ghost use Rattle.std.specs.Prelude.{◌≡◌};
ghost use Rattle.object_words.specs.Contents.{Contents};
ghost use Rattle.window_rule.specs.Lengths.{Places};
ghost use Rattle.window_rule.specs.Truths.{IsTrueView, WasLawful};
ghost use Rattle.window_rule.specs.Commit.{Commits, MayCommit, entry_by};
ghost use Rattle.window_rule.specs.Trails.{Follows};

use crate::rank::Rank;
use crate::window::Window;
use object_words::{Carries, Law};
use rma_layout::Word;
use std::marker::Brand;

/// A note, and what its entry has read and writes. These two are known to proofs alone.
pub trait Enters<L: Law>: Carries<L> {
    ghost reads: { Self → Contents };

    ghost writes: { Self → Contents };
}

impl<L: Law> Rank<L> {
    /// Commits what it has attached as the next entry of the history, made under the least of its rights, and answers the
    /// entry's number.
    pub fn commit<C: Enters<L>>(&mut self, window: &Window<L>, note: &C) -> u64
        requires window { self.old.window ≡ window.now }
        requires may { MayCommit L.fits window.now.shape self.old.view
            (entry_by self.old.view (C.reads note.now) (C.writes note.now) (C.note note.now)) }
        ensures window { self.new.window ≡ self.old.window }
        ensures spares { self.new.spares ≡ self.old.spares }
        ensures view { Commits (entry_by self.old.view (C.reads note.now) (C.writes note.now) (C.note note.now))
            self.old.view result self.new.view }
    {
        self.fetch_add_about::<Brand, C>(window, Word::Commit, 1, note)
    }

    /// The length of the history now. All that it knows is so after these entries.
    pub fn place(&mut self, window: &Window<L>) -> u64
        requires window { self.old.window ≡ window.now }
        ensures window { self.new.window ≡ self.old.window }
        ensures spares { self.new.spares ≡ self.old.spares }
        ensures view { Places self.old.view result self.new.view }
        ensures truths { IsTrueView L.fits window.now.shape self.new.view }
        ensures lawful { WasLawful L.fits window.now.shape Word.Commit result self.new.view }
        ensures follows { Follows self.old.view self.new.view }
    {
        self.load::<Brand>(window, Word::Commit)
    }
}
