//! The steps on the length word of an object.
ghost use Rattle.std.specs.Prelude.{◌≡◌, ◌<◌};
ghost use Rattle.rma_layout.specs.Placement.{IsBlock};
ghost use Rattle.window_rule.specs.Lengths.{MayRead, Measures};
ghost use Rattle.window_rule.specs.Reads.{Gets, MayGet, MayPut, put_in};
ghost use Rattle.window_rule.specs.Attach.{AttachesAll, MayAttachSome, SparesAreLeft};
ghost use Rattle.window_rule.specs.Detach.{Detaches, MayDetach};
ghost use Rattle.window_rule.specs.Truths.{IsTrueView};
ghost use Rattle.window_rule.specs.Trails.{Follows};

use crate::rank::Rank;
use crate::window::Window;
use object_words::Law;
use rma_layout::{DPtr, Word};
use std::marker::Brand;

impl<L: Law> Rank<L> {
    /// How many words an object has that it has locked, or any object while it is whole in the gate.
    pub fn length(&mut self, window: &Window<L>, o: DPtr) -> u64
        requires window { self.old.window ≡ window.now }
        requires object { IsBlock window.now.shape o }
        requires may { MayRead self.old.view o }
        ensures window { self.new.window ≡ self.old.window }
        ensures spares { self.new.spares ≡ self.old.spares }
        ensures view { Measures o self.old.view result self.new.view }
        ensures truths { IsTrueView L.fits window.now.shape self.new.view }
        ensures follows { Follows self.old.view self.new.view }
    {
        self.load::<Brand>(window, Word::Length(o))
    }

    /// Detaches an object that it has marked and open, to write it: the object has no words from then on, and its blocks
    /// are with this rank.
    pub fn detach(&mut self, window: &Window<L>, o: DPtr)
        requires window { self.old.window ≡ window.now }
        requires object { IsBlock window.now.shape o }
        requires may { MayDetach self.old.view o }
        ensures window { self.new.window ≡ self.old.window }
        ensures spares { self.new.spares ≡ self.old.spares }
        ensures view { Detaches window.now.shape o self.old.view self.new.view }
        ensures follows { Follows self.old.view self.new.view }
    {
        self.store::<Brand>(window, Word::Length(o), 0);
    }

    /// A word of a block of an object that it knows, or of a block that it has.
    pub fn get(&mut self, window: &Window<L>, b: DPtr, i: u64) -> u64
        requires window { self.old.window ≡ window.now }
        requires block { IsBlock window.now.shape b }
        requires within { i < window.now.shape.words }
        requires may { MayGet self.old.view b }
        ensures window { self.new.window ≡ self.old.window }
        ensures spares { self.new.spares ≡ self.old.spares }
        ensures view { Gets window.now.shape b i self.old.view result self.new.view }
        ensures follows { Follows self.old.view self.new.view }
    {
        self.load::<Brand>(window, Word::Data(b, i))
    }

    /// Stores a word of a block of its own, or of an object that it has detached and not attached.
    pub fn put(&mut self, window: &Window<L>, b: DPtr, i: u64, v: u64)
        requires window { self.old.window ≡ window.now }
        requires block { IsBlock window.now.shape b }
        requires within { i < window.now.shape.words }
        requires may { MayPut self.old.view b }
        ensures window { self.new.window ≡ self.old.window }
        ensures spares { self.new.spares ≡ self.old.spares }
        ensures view { self.new.view ≡ put_in b i v self.old.view }
        ensures follows { Follows self.old.view self.new.view }
    {
        self.store::<Brand>(window, Word::Data(b, i), v);
    }

    /// Attaches new words to an object that it has detached: so many as `len` says, which stand in the blocks that lead on
    /// from the object's first one. No spare is among these. What the object's blocks were and it no longer has is this rank's own.
    pub fn attach(&mut self, window: &Window<L>, o: DPtr, len: u64)
        requires window { self.old.window ≡ window.now }
        requires object { IsBlock window.now.shape o }
        requires may { MayAttachSome window.now.shape o len self.old.view }
        requires spares_left { SparesAreLeft window.now.shape o len self.old.view self.old.spares }
        ensures window { self.new.window ≡ self.old.window }
        ensures spares { self.new.spares ≡ self.old.spares }
        ensures view { AttachesAll window.now.shape o self.old.view len self.new.view }
        ensures follows { Follows self.old.view self.new.view }
    {
        self.store::<Brand>(window, Word::Length(o), len);
    }
}
