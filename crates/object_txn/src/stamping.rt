ghost use Rattle.std.specs.Prelude.{◌≡◌, ◌≤◌, []};
ghost use Rattle.std.specs.List.{AllByRecursion};
ghost use Rattle.rma_layout.specs.Placement.{Place};
ghost use Rattle.window_rule.specs.Partition.{times};
ghost use Rattle.window_rule.specs.Trails.{Follows};
ghost use Rattle.object_txn.specs.Plans.{AreOpened, AreToClose, IsMarked, OnlyOpened, objects_in};

use crate::plan::Plan;
use fabric::{Rank, Window};
use object_words::Law;

/// Makes the stamp of each of these objects odd: it is open then. It takes no memory.
pub(crate) fn open_all<L: Law>(window: &Window<L>, rank: &mut Rank<L>, plans: &[Plan])
    requires window { rank.old.window ≡ window.now }
    requires marked { AllByRecursion (IsMarked window.now.shape rank.old.view.locks) plans.now }
    requires once { (object : Place) → times object (objects_in plans.now) ≤ 1 }
    requires clean { rank.old.view.dirty ≡ [] }
    requires closed { rank.old.view.stamps.opened ≡ [] }
    ensures window { rank.new.window ≡ rank.old.window }
    ensures spares { rank.new.spares ≡ rank.old.spares }
    ensures only { OnlyOpened rank.old.view rank.new.view }
    ensures opened { AreOpened plans.now [] rank.new.view.stamps.opened }
    ensures follows { Follows rank.old.view rank.new.view }
{
    for plan in plans {
        rank.stamp_up(window, plan.at);
    }
}

/// Makes the stamp of each of these objects even again, once the writes of them are committed: none is open then. It takes
/// no memory.
pub(crate) fn close_all<L: Law>(window: &Window<L>, rank: &mut Rank<L>, plans: &[Plan])
    requires window { rank.old.window ≡ window.now }
    requires marked { AllByRecursion (IsMarked window.now.shape rank.old.view.locks) plans.now }
    requires once { (object : Place) → times object (objects_in plans.now) ≤ 1 }
    requires clean { rank.old.view.dirty ≡ [] }
    requires opened { AreToClose plans.now rank.old.view.stamps.opened }
    ensures window { rank.new.window ≡ rank.old.window }
    ensures spares { rank.new.spares ≡ rank.old.spares }
    ensures only { OnlyOpened rank.old.view rank.new.view }
    ensures closed { rank.new.view.stamps.opened ≡ [] }
    ensures follows { Follows rank.old.view rank.new.view }
{
    for plan in plans {
        rank.stamp_up(window, plan.at);
    }
}
