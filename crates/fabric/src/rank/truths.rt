//! What is true of every view, told without a change of the view.
ghost use Rattle.std.specs.Prelude.{◌≡◌};
ghost use Rattle.window_rule.specs.Truths.{IsTrueView};

use crate::rank::Rank;
use crate::window::Window;
use object_words::Law;
use rma_layout::{DPtr, Word};
use std::marker::Brand;

impl<L: Law> Rank<L> {
    /// Tells what is true of every view, and leaves its own as it is. It loads a word that few ranks change, and forgets it.
    pub fn truths(&mut self, window: &Window<L>)
        requires window { self.old.window ≡ window.now }
        ensures window { self.new.window ≡ self.old.window }
        ensures spares { self.new.spares ≡ self.old.spares }
        ensures view { self.new.view ≡ self.old.view }
        ensures truths { IsTrueView L.fits window.now.shape self.new.view }
    {
        window.geometry().keeps_ranges();
        let metadata = DPtr::new(0, 0);
        self.load::<Brand>(window, Word::Stamp(metadata));
    }
}
