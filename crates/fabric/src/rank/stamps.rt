//! The step on the stamp of an object.
ghost use Rattle.std.specs.Prelude.{◌≡◌};
ghost use Rattle.rma_layout.specs.Placement.{IsBlock};
ghost use Rattle.window_rule.specs.Stamping.{MayStamp, stamped};
ghost use Rattle.window_rule.specs.Trails.{Follows};

use crate::rank::Rank;
use crate::window::Window;
use object_words::Law;
use rma_layout::{DPtr, Word};
use std::marker::Brand;

impl<L: Law> Rank<L> {
    /// Raises the stamp of an object that it has marked, by one: from even to odd before it changes the object, and from
    /// odd to even once the change is committed.
    pub fn stamp_up(&mut self, window: &Window<L>, o: DPtr)
        requires window { self.old.window ≡ window.now }
        requires object { IsBlock window.now.shape o }
        requires may { MayStamp self.old.view o }
        ensures window { self.new.window ≡ self.old.window }
        ensures spares { self.new.spares ≡ self.old.spares }
        ensures view { self.new.view ≡ stamped o self.old.view }
        ensures follows { Follows self.old.view self.new.view }
    {
        self.fetch_add::<Brand>(window, Word::Stamp(o), 1);
    }
}
