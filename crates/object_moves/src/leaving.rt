ghost use Rattle.std.specs.Prelude.{◌≡◌, [], Some};
ghost use Rattle.rma_layout.specs.Placement.{IsBlock, Place};
ghost use Rattle.window_rule.specs.View.{Hold};
ghost use Rattle.window_rule.specs.Locks.{hold_of};
ghost use Rattle.window_rule.specs.Steps.{unlocked};
ghost use Rattle.window_rule.specs.Trails.{Follows};
ghost use Rattle.object_moves.specs.Held.{hold_as};
ghost use Rattle.object_moves.specs.Leaves.{LeavesAll};

use crate::held::{HeldObjects, Mode};
use fabric::{Rank, Window};
use object_words::Law;
use rma_layout::DPtr;

/// Leaves every lock of a rank that has nothing detached and no object open. The locks are those that are noted.
///
/// It takes no memory. What was read of the objects is forgotten.
pub fn leave_all<L: Law>(window: &Window<L>, rank: &mut Rank<L>, held: &mut HeldObjects)
    requires window { rank.old.window ≡ window.now }
    requires locks { (object : Place) → hold_of rank.old.view.locks object ≡ hold_of held.old object }
    requires blocks { (object : Place) (hold : Hold) → hold_of held.old object ≡ Some hold → IsBlock window.now.shape object }
    requires clean { rank.old.view.dirty ≡ [] }
    requires closed { rank.old.view.stamps.opened ≡ [] }
    ensures window { rank.new.window ≡ rank.old.window }
    ensures spares { rank.new.spares ≡ rank.old.spares }
    ensures none { held.new ≡ [] }
    ensures left { LeavesAll rank.old.view rank.new.view }
    ensures follows { Follows rank.old.view rank.new.view }
{
    while let Some((at, mode)) = held.pop_first() {
        leave(window, rank, at, mode);
    }
}

/// Leaves one lock.
fn leave<L: Law>(window: &Window<L>, rank: &mut Rank<L>, at: DPtr, mode: Mode)
    requires window { rank.old.window ≡ window.now }
    requires object { IsBlock window.now.shape at }
    requires locked { hold_of rank.old.view.locks at ≡ Some (hold_as mode) }
    requires clean { rank.old.view.dirty ≡ [] }
    requires closed { rank.old.view.stamps.opened ≡ [] }
    ensures window { rank.new.window ≡ rank.old.window }
    ensures spares { rank.new.spares ≡ rank.old.spares }
    ensures left { rank.new.view ≡ unlocked at rank.old.view }
    ensures follows { Follows rank.old.view rank.new.view }
{
    match mode {
        Mode::Shared => rank.share_leave(window, at),
        Mode::Marked => rank.mark_leave(window, at),
    }
}
