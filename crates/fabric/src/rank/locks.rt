//! The steps on the lock word of an object.
ghost use Rattle.std.specs.Prelude.{◌≡◌, None, Some, IfErr, IsOk, MatchResult};
ghost use Rattle.lock_words.specs.declared.want.Want.TheVariants as want;
ghost use Rattle.lock_words.specs.Conflicts.{Conflicts};
ghost use Rattle.rma_layout.specs.Placement.{IsBlock};
ghost use Rattle.window_rule.specs.View.{Shared, Marked, Returning, OfObject};
ghost use Rattle.window_rule.specs.Dirty.{dirt_of};
ghost use Rattle.window_rule.specs.StampsHold.{opened_of};
ghost use Rattle.window_rule.specs.Locks.{hold_of, shares_of};
ghost use Rattle.window_rule.specs.RightsHold.{IsAlone};
ghost use Rattle.window_rule.specs.Steps.{Leaves, Marks, Rises, Shares, locked, refused, tried, unlocked};
ghost use Rattle.window_rule.specs.Trails.{Follows};

use crate::rank::Rank;
use crate::window::Window;
use lock_words::{MARK, Want, conflicts};
use object_words::Law;
use rma_layout::{DPtr, Word};
use std::marker::Brand;

impl<L: Law> Rank<L> {
    /// Shares an object that it has not locked, so that no other rank marks it meanwhile.
    ///
    /// It is refused exactly where another rank has the object marked. The answer is then the word that it found, and the
    /// share that it had added is taken back.
    #[tactic(auto, using(window_rule::proofs::LockLemmas::refused_is_unlocked, window_rule::proofs::Trails::follows_trans))]
    pub fn share_try(&mut self, window: &Window<L>, o: DPtr) -> Result<(), u64>
        requires window { self.old.window ≡ window.now }
        requires object { IsBlock window.now.shape o }
        requires unlocked { hold_of self.old.view.locks o ≡ None }
        ensures window { self.new.window ≡ self.old.window }
        ensures spares { self.new.spares ≡ self.old.spares }
        ensures view { MatchResult result (λ _. self.new.view ≡ tried (locked o Shared self.old.view))
            (λ word. self.new.view ≡ refused (OfObject o) want.Share word (tried self.old.view)) }
        ensures cause { IfErr result (λ word. Conflicts want.Share word) }
        ensures alone { IsAlone window.now.shape self.old.view → IsOk result }
        ensures follows { Follows self.old.view self.new.view }
    {
        let word = self.fetch_add::<Brand>(window, Word::Lock(o), 1);
        if conflicts(Want::Share, word) {
            self.fetch_sub::<Brand>(window, Word::Lock(o), 1);
            return Err(word);
        }
        Ok(())
    }

    /// Gives up its share of an object.
    pub fn share_leave(&mut self, window: &Window<L>, o: DPtr)
        requires window { self.old.window ≡ window.now }
        requires object { IsBlock window.now.shape o }
        requires shared { hold_of self.old.view.locks o ≡ Some Shared }
        ensures window { self.new.window ≡ self.old.window }
        ensures spares { self.new.spares ≡ self.old.spares }
        ensures view { self.new.view ≡ unlocked o self.old.view }
        ensures follows { Follows self.old.view self.new.view }
    {
        self.fetch_sub::<Brand>(window, Word::Lock(o), 1);
    }

    /// Marks an object that it has not locked, so that no other rank has it.
    ///
    /// It is refused exactly where the lock word is not 0. The answer is then that word.
    pub fn mark_try(&mut self, window: &Window<L>, o: DPtr) -> Result<(), u64>
        requires window { self.old.window ≡ window.now }
        requires object { IsBlock window.now.shape o }
        requires unlocked { hold_of self.old.view.locks o ≡ None }
        ensures window { self.new.window ≡ self.old.window }
        ensures spares { self.new.spares ≡ self.old.spares }
        ensures view { MatchResult result (λ _. self.new.view ≡ tried (locked o Marked self.old.view))
            (λ word. self.new.view ≡ refused (OfObject o) want.Mark word (tried self.old.view)) }
        ensures cause { IfErr result (λ word. Conflicts want.Mark word) }
        ensures alone { IsAlone window.now.shape self.old.view → IsOk result }
        ensures follows { Follows self.old.view self.new.view }
    {
        let word = self.compare_exchange::<Brand>(window, Word::Lock(o), 0, MARK);
        if conflicts(Want::Mark, word) {
            return Err(word);
        }
        Ok(())
    }

    /// Marks an object that it shares, and gives up the share for it.
    ///
    /// It is refused exactly where the lock word counts another share. The answer is then that word, and it shares the
    /// object still.
    pub fn rise_try(&mut self, window: &Window<L>, o: DPtr) -> Result<(), u64>
        requires window { self.old.window ≡ window.now }
        requires object { IsBlock window.now.shape o }
        requires shared { hold_of self.old.view.locks o ≡ Some Shared }
        ensures window { self.new.window ≡ self.old.window }
        ensures spares { self.new.spares ≡ self.old.spares }
        ensures view { MatchResult result (λ _. self.new.view ≡ tried (locked o Marked self.old.view))
            (λ word. self.new.view ≡ refused (OfObject o) want.Rise word (tried self.old.view)) }
        ensures cause { IfErr result (λ word. Conflicts want.Rise word) }
        ensures alone { IsAlone window.now.shape self.old.view → IsOk result }
        ensures follows { Follows self.old.view self.new.view }
    {
        let word = self.compare_exchange::<Brand>(window, Word::Lock(o), 1, MARK);
        if conflicts(Want::Rise, word) {
            return Err(word);
        }
        Ok(())
    }

    /// Gives up the mark of an object that it has not detached.
    pub fn mark_leave(&mut self, window: &Window<L>, o: DPtr)
        requires window { self.old.window ≡ window.now }
        requires object { IsBlock window.now.shape o }
        requires marked { hold_of self.old.view.locks o ≡ Some Marked }
        requires clean { dirt_of self.old.view.dirty o ≡ None }
        requires closed { opened_of self.old.view.stamps.opened o ≡ None }
        ensures window { self.new.window ≡ self.old.window }
        ensures spares { self.new.spares ≡ self.old.spares }
        ensures view { self.new.view ≡ unlocked o self.old.view }
        ensures follows { Follows self.old.view self.new.view }
    {
        self.fetch_sub::<Brand>(window, Word::Lock(o), MARK);
    }
}
