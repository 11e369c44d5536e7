//! The steps on the gate.
ghost use Rattle.std.specs.Prelude.{◌≡◌, [], IfErr, IsOk, MatchResult};
ghost use Rattle.lock_words.specs.declared.want.Want.TheVariants as want;
ghost use Rattle.lock_words.specs.Conflicts.{Conflicts};
ghost use Rattle.window_rule.specs.View.{Outside, AsWriter, AsWhole, OfGate};
ghost use Rattle.window_rule.specs.RightsHold.{IsAlone};
ghost use Rattle.window_rule.specs.Steps.{refused};
ghost use Rattle.window_rule.specs.Gate.{entered, outside};
ghost use Rattle.window_rule.specs.Trails.{Follows};

use crate::rank::Rank;
use crate::window::Window;
use lock_words::{WHOLE, Want, conflicts};
use object_words::Law;
use rma_layout::Word;
use std::marker::Brand;

impl<L: Law> Rank<L> {
    /// Takes a writer's place in the gate, beside which nobody has a whole one. To change objects a rank needs one.
    ///
    /// It is refused exactly where the gate counts a whole place, also one that is about to be taken back. The answer is
    /// then the word that it found, and the place that it had added is taken back.
    #[tactic(auto, using(window_rule::proofs::GateSteps::refused_is_outside, window_rule::proofs::Trails::follows_trans))]
    pub fn writer_try(&mut self, window: &Window<L>) -> Result<(), u64>
        requires window { self.old.window ≡ window.now }
        requires outside { self.old.view.gate ≡ Outside }
        ensures window { self.new.window ≡ self.old.window }
        ensures spares { self.new.spares ≡ self.old.spares }
        ensures view { MatchResult result (λ _. self.new.view ≡ entered AsWriter self.old.view)
            (λ word. self.new.view ≡ refused OfGate want.Writer word self.old.view) }
        ensures cause { IfErr result (λ word. Conflicts want.Writer word) }
        ensures alone { IsAlone window.now.shape self.old.view → IsOk result }
        ensures follows { Follows self.old.view self.new.view }
    {
        let word = self.fetch_add::<Brand>(window, Word::Gate, 1);
        if conflicts(Want::Writer, word) {
            self.fetch_sub::<Brand>(window, Word::Gate, 1);
            return Err(word);
        }
        Ok(())
    }

    /// Gives up its writer's place, once nothing of it is detached.
    pub fn writer_leave(&mut self, window: &Window<L>)
        requires window { self.old.window ≡ window.now }
        requires writer { self.old.view.gate ≡ AsWriter }
        requires clean { self.old.view.dirty ≡ [] }
        ensures window { self.new.window ≡ self.old.window }
        ensures spares { self.new.spares ≡ self.old.spares }
        ensures view { self.new.view ≡ entered Outside self.old.view }
        ensures follows { Follows self.old.view self.new.view }
    {
        self.fetch_sub::<Brand>(window, Word::Gate, 1);
    }

    /// Takes a whole place in the gate, beside which no object is changed. With it a rank may read every object.
    ///
    /// It is refused exactly where the gate counts a writer's place, also one that is about to be taken back. The answer
    /// is then the word that it found, and the place that it had added is taken back.
    #[tactic(auto, using(window_rule::proofs::GateSteps::refused_is_outside, window_rule::proofs::Trails::follows_trans))]
    pub fn all_try(&mut self, window: &Window<L>) -> Result<(), u64>
        requires window { self.old.window ≡ window.now }
        requires outside { self.old.view.gate ≡ Outside }
        ensures window { self.new.window ≡ self.old.window }
        ensures spares { self.new.spares ≡ self.old.spares }
        ensures view { MatchResult result (λ _. self.new.view ≡ entered AsWhole self.old.view)
            (λ word. self.new.view ≡ refused OfGate want.Whole word self.old.view) }
        ensures cause { IfErr result (λ word. Conflicts want.Whole word) }
        ensures alone { IsAlone window.now.shape self.old.view → IsOk result }
        ensures follows { Follows self.old.view self.new.view }
    {
        let word = self.fetch_add::<Brand>(window, Word::Gate, WHOLE);
        if conflicts(Want::Whole, word) {
            self.fetch_sub::<Brand>(window, Word::Gate, WHOLE);
            return Err(word);
        }
        Ok(())
    }

    /// Gives up its whole place, and forgets what it has read of objects that it has not locked.
    pub fn all_leave(&mut self, window: &Window<L>)
        requires window { self.old.window ≡ window.now }
        requires whole { self.old.view.gate ≡ AsWhole }
        ensures window { self.new.window ≡ self.old.window }
        ensures spares { self.new.spares ≡ self.old.spares }
        ensures view { self.new.view ≡ outside self.old.view }
        ensures follows { Follows self.old.view self.new.view }
    {
        self.fetch_sub::<Brand>(window, Word::Gate, WHOLE);
    }
}
