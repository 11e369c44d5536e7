//! The steps on the heads of free lists and on free-list words.
ghost use Rattle.std.specs.Prelude.{◌≡◌, ◌≢◌, ◌<◌, IsOk, MatchResult};
ghost use Rattle.rma_layout.specs.Placement.{IsBlock};
ghost use Rattle.object_words.specs.Blocks.{on_rank};
ghost use Rattle.window_rule.specs.Objects.{first_of};
ghost use Rattle.window_rule.specs.RightsHold.{IsAlone};
ghost use Rattle.window_rule.specs.Partition.{places_of, times};
ghost use Rattle.window_rule.specs.Pool.{Heads, MayBeFree, MayLink, MayPop, MayPush, MayRenew, Nexts, linked, missed, popped, pushed, renewed, Renews};
ghost use Rattle.window_rule.specs.Spares.{IsNoSpare};
ghost use Rattle.window_rule.specs.Trails.{Follows};

use crate::rank::Rank;
use crate::window::Window;
use free_list::{first, head_of, tag};
use object_words::Law;
use rma_layout::{DPtr, Word};
use std::marker::Brand;

impl<L: Law> Rank<L> {
    /// Loads the head of a rank's free list.
    pub fn head(&mut self, window: &Window<L>, r: u16) -> u64
        requires window { self.old.window ≡ window.now }
        requires rank { r < window.now.shape.ranks }
        ensures window { self.new.window ≡ self.old.window }
        ensures spares { self.new.spares ≡ self.old.spares }
        ensures view { Heads window.now.shape r self.old.view result self.new.view }
        ensures follows { Follows self.old.view self.new.view }
    {
        self.load::<Brand>(window, Word::Head(r))
    }

    /// Loads the free-list word of a block. The answer is worth something where the block is the first of a noted list or
    /// its own, and on a rank that is alone for each block of a noted list.
    pub fn next(&mut self, window: &Window<L>, b: DPtr) -> u64
        requires window { self.old.window ≡ window.now }
        requires block { IsBlock window.now.shape b }
        requires some_block { b.block ≢ 0 }
        ensures window { self.new.window ≡ self.old.window }
        ensures spares { self.new.spares ≡ self.old.spares }
        ensures view { Nexts window.now.shape b self.old.view result self.new.view }
        ensures follows { Follows self.old.view self.new.view }
    {
        self.load::<Brand>(window, Word::FreeList(b))
    }

    /// Takes the first block of a rank's free list as one of its own. It was with nobody, and is not reserved.
    ///
    /// It is refused where the head isn't the one that was loaded last; the answer is then the head that was found.
    pub fn pop(&mut self, window: &Window<L>, r: u16, head: u64, next: u64) -> Result<DPtr, u64>
        requires window { self.old.window ≡ window.now }
        requires may { MayPop window.now.shape self.old.view r head next }
        ensures window { self.new.window ≡ self.old.window }
        ensures spares { self.new.spares ≡ self.old.spares }
        ensures view { MatchResult result
            (λ block. (block ≡ on_rank r (first_of head)) × (self.new.view ≡ popped r block next self.old.view) × (times block (places_of self.old.view.private) ≡ 0) × MayBeFree window.now.shape r block)
            (λ found. (found ≢ head) × (self.new.view ≡ missed r head found self.old.view)) }
        ensures alone { IsAlone window.now.shape self.old.view → IsOk result }
        ensures follows { Follows self.old.view self.new.view }
    {
        let new = head_of(tag(head) + 1, next);
        let found = self.compare_exchange::<Brand>(window, Word::Head(r), head, new);
        if found == head {
            Ok(DPtr::new(r, first(head)))
        } else {
            Err(found)
        }
    }

    /// Stores the free-list word of a block of its own that is no spare.
    pub fn link(&mut self, window: &Window<L>, b: DPtr, next: u64)
        requires window { self.old.window ≡ window.now }
        requires block { IsBlock window.now.shape b }
        requires may { MayLink self.old.view b next }
        requires no_spare { IsNoSpare window.now.shape self.old.view.private self.old.spares b }
        ensures window { self.new.window ≡ self.old.window }
        ensures spares { self.new.spares ≡ self.old.spares }
        ensures view { self.new.view ≡ linked b next self.old.view }
        ensures follows { Follows self.old.view self.new.view }
    {
        self.store::<Brand>(window, Word::FreeList(b), next);
    }

    /// Puts a block of its own, which is no spare and which it hasn't locked, before the free list of its rank.
    ///
    /// The block leads to the first of the list that was loaded last. It is refused where the head isn't that any more; the
    /// answer is then the head that was found.
    pub fn push(&mut self, window: &Window<L>, b: DPtr, head: u64) -> Result<(), u64>
        requires window { self.old.window ≡ window.now }
        requires may { MayPush window.now.shape self.old.view b head }
        requires no_spare { IsNoSpare window.now.shape self.old.view.private self.old.spares b }
        ensures window { self.new.window ≡ self.old.window }
        ensures spares { self.new.spares ≡ self.old.spares }
        ensures view { MatchResult result
            (λ _. self.new.view ≡ pushed b self.old.view)
            (λ found. (found ≢ head) × (self.new.view ≡ missed b.rank head found self.old.view)) }
        ensures alone { IsAlone window.now.shape self.old.view → IsOk result }
        ensures follows { Follows self.old.view self.new.view }
    {
        window.geometry().keeps_ranges();
        let new = head_of(tag(head) + 1, b.block());
        let found = self.compare_exchange::<Brand>(window, Word::Head(b.rank()), head, new);
        if found == head { Ok(()) } else { Err(found) }
    }

    /// Sets the tag of a rank's head to 0, on a rank that is alone.
    pub fn renew(&mut self, window: &Window<L>, r: u16)
        requires window { self.old.window ≡ window.now }
        requires rank { r < window.now.shape.ranks }
        requires alone { IsAlone window.now.shape self.old.view }
        ensures window { self.new.window ≡ self.old.window }
        ensures spares { self.new.spares ≡ self.old.spares }
        ensures view { Renews r self.old.view self.new.view }
        ensures follows { Follows self.old.view self.new.view }
    {
        let head = self.head(window, r);
        self.renew_at(window, r, head);
    }

    /// Sets the tag of a head to 0 that was loaded last.
    fn renew_at(&mut self, window: &Window<L>, r: u16, head: u64)
        requires window { self.old.window ≡ window.now }
        requires rank { r < window.now.shape.ranks }
        requires may { MayRenew window.now.shape self.old.view r head }
        ensures window { self.new.window ≡ self.old.window }
        ensures spares { self.new.spares ≡ self.old.spares }
        ensures view { self.new.view ≡ renewed r self.old.view }
        ensures follows { Follows self.old.view self.new.view }
    {
        self.store::<Brand>(window, Word::Head(r), first(head));
    }
}
