ghost use Rattle.std.specs.Prelude.{◌≡◌, ◌+◌, ◌≤◌, []};
ghost use Rattle.rma_layout.specs.Placement.{Place};
ghost use Rattle.object_words.specs.Contents.{content_of};
ghost use Rattle.window_rule.specs.Partition.{places_of, times};
ghost use Rattle.window_rule.specs.Spares.{IsNoSpare};
ghost use Rattle.window_rule.specs.Trails.{Follows};
ghost use Rattle.object_txn.specs.Plans.{ArePlanned, AreWritten, HasRoom, OnlyStored, surplus_in, taken_for};

use crate::plan::Plan;
use fabric::{Rank, Window};
use object_moves::rewrite;
use object_store::Objects;
use object_words::{Law, Words};
use rma_layout::DPtr;
use std::alloc::Global;

/// Rewrites each of these objects, in their order, with what is written to it. It takes no memory.
pub(crate) fn rewrite_all<L: Law>(
    window: &Window<L>,
    rank: &mut Rank<L>,
    alloc: Global,
    plans: &[Plan],
    reads: &Objects,
    writes: &Objects,
)
    requires window { rank.old.window ≡ window.now }
    requires planned { ArePlanned window.now.shape reads.now writes.now rank.old plans.now }
    requires written { AreWritten reads.now writes.now plans.now rank.old.view }
    requires room { HasRoom window.now.shape plans.now rank.old.view }
    ensures window { rank.new.window ≡ rank.old.window }
    ensures spares { rank.new.spares ≡ rank.old.spares }
    ensures only { OnlyStored rank.old.view rank.new.view }
    ensures written { AreWritten reads.now writes.now [] rank.new.view }
    ensures room { HasRoom window.now.shape [] rank.new.view }
    ensures exchanged { (block : Place) → times block (places_of rank.new.view.private) + taken_for block plans.now ≡ times block (places_of rank.old.view.private) + times block (surplus_in plans.now) }
    ensures surplus { (block : Place) → times block (surplus_in plans.now) ≤ times block (places_of rank.new.view.private) }
    ensures no_spare { (block : Place) → IsNoSpare window.now.shape rank.old.view.private rank.old.spares block
        → IsNoSpare window.now.shape rank.new.view.private rank.new.spares block }
    ensures follows { Follows rank.old.view rank.new.view }
{
    let none = Words::new(alloc);
    for plan in plans {
        let old = words_or(reads, plan.at, &none);
        let words = words_or(writes, plan.at, &none);
        rewrite(window, rank, plan.at, &plan.blocks, plan.kept, old, words);
    }
}

/// The words that stand at an object, or no words.
fn words_or<'a>(objects: &'a Objects, at: DPtr, none: &'a Words) -> &'a Words
    requires { none.now ≡ [] }
    ensures { result.now ≡ content_of objects.now at }
{
    match objects.get(at) {
        Some(words) => words,
        None => none,
    }
}
