//! Blocks that a rank couldn't give back, which it keeps for its next need. These calls make no step.
ghost use Rattle.std.specs.Prelude.{◌≡◌, ◌≢◌, ◌<◌, Some};
ghost use Rattle.object_words.specs.Blocks.{on_rank};
ghost use Rattle.window_rule.specs.Pool.{MayBeFree};
ghost use Rattle.window_rule.specs.Spares.{HasSpares, IsNoSpare, first_spare_of, own_next_of, with_spare, without_spare};

use crate::rank::Rank;
use object_words::Law;
use rma_layout::DPtr;

impl<L: Law> Rank<L> {
    /// The number of the first spare of a home rank, 0 if there is none.
    pub fn first_spare(&self, home: u16) -> u64
        requires { home < 64 }
        ensures first { result ≡ first_spare_of self.now.spares home }
        ensures has { HasSpares self.now.window.shape self.now.view.private self.now.spares }
    {
        self.firsts[home as usize]
    }

    /// Keeps a block of its own as the first spare of its rank. The block's free-list word leads to the one that was the
    /// first.
    pub fn keep_spare(&mut self, b: DPtr)
        requires rank { b.rank < 64 }
        requires free { MayBeFree self.old.window.shape b.rank b }
        requires linked { own_next_of self.old.view.private b ≡ Some (first_spare_of self.old.spares b.rank) }
        ensures window { self.new.window ≡ self.old.window }
        ensures view { self.new.view ≡ self.old.view }
        ensures spares { self.new.spares ≡ with_spare b self.old.spares }
    {
        let home = b.rank() as usize;
        let last = if self.firsts[home] == 0 {
            b.block()
        } else {
            self.lasts[home]
        };
        self.lasts[home] = last;
        self.firsts[home] = b.block();
    }

    /// Takes the first spare of a home rank for use: it is a block of its own that is no spare then. `next` is the block's
    /// free-list word.
    pub fn use_spare(&mut self, home: u16, next: u64)
        requires home { home < 64 }
        requires some_spare { first_spare_of self.old.spares home ≢ 0 }
        requires linked { own_next_of self.old.view.private (on_rank home (first_spare_of self.old.spares home)) ≡ Some next }
        ensures window { self.new.window ≡ self.old.window }
        ensures view { self.new.view ≡ self.old.view }
        ensures spares { self.new.spares ≡ without_spare home next self.old.spares }
        ensures used { IsNoSpare self.new.window.shape self.new.view.private self.new.spares
            (on_rank home (first_spare_of self.old.spares home)) }
    {
        let home = home as usize;
        let last = if next == 0 { 0 } else { self.lasts[home] };
        self.lasts[home] = last;
        self.firsts[home] = next;
    }
}
