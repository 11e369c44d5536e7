ghost use Rattle.std.specs.Prelude.{◌≡◌, ◌⊎◌, [], None, Some, IfErr, OnOk};
ghost use Rattle.rma_layout.specs.Placement.{IsBlock};
ghost use Rattle.window_rule.specs.ContentsHold.{Lasts};
ghost use Rattle.window_rule.specs.View.{Marked, Shared};
ghost use Rattle.window_rule.specs.Locks.{hold_of};
ghost use Rattle.window_rule.specs.Trails.{Follows};
ghost use Rattle.object_store.specs.State.{names_nothing, names_object};
ghost use Rattle.object_txn.specs.State.{named_by};
ghost use Rattle.object_txn.specs.Causes.{Explains};
ghost use Rattle.object_txn.specs.Moves.{Locked};
ghost use Rattle.object_txn.specs.Tied.{HasLocks};

use crate::refused::TxnRefused;
use fabric::{Rank, Window};
use lock_words::Want;
use object_moves::{HeldObjects, Mode};
use object_words::Law;
use rma_layout::DPtr;

/// Sees to it that an object is locked.
pub(crate) fn hold<L: Law>(
    window: &Window<L>,
    rank: &mut Rank<L>,
    held: &mut HeldObjects,
    at: DPtr,
) -> Result<(), TxnRefused>
    requires window { rank.old.window ≡ window.now }
    requires object { IsBlock window.now.shape at }
    requires locks { HasLocks window.now.shape rank.old.view.locks held.old }
    ensures window { rank.new.window ≡ rank.old.window }
    ensures spares { rank.new.spares ≡ rank.old.spares }
    ensures locks { HasLocks window.now.shape rank.new.view.locks held.new }
    ensures locked { Locked at rank.old.view rank.new.view held.old held.new }
    ensures lasts { OnOk result (Lasts (hold_of rank.new.view.locks at)) }
    ensures names { IfErr result (λ why. (named_by why ≡ names_nothing) ⊎ (named_by why ≡ names_object at)) }
    ensures refused { IfErr result (λ why. Explains window.now.shape rank.old.view rank.new.view why) }
    ensures follows { Follows rank.old.view rank.new.view }
{
    match held.mode(at) {
        Some(_) => Ok(()),
        None => share(window, rank, held, at),
    }
}

/// Shares an object that isn't locked.
fn share<L: Law>(
    window: &Window<L>,
    rank: &mut Rank<L>,
    held: &mut HeldObjects,
    at: DPtr,
) -> Result<(), TxnRefused>
    requires window { rank.old.window ≡ window.now }
    requires object { IsBlock window.now.shape at }
    requires absent { hold_of held.old at ≡ None }
    requires locks { HasLocks window.now.shape rank.old.view.locks held.old }
    ensures window { rank.new.window ≡ rank.old.window }
    ensures spares { rank.new.spares ≡ rank.old.spares }
    ensures locks { HasLocks window.now.shape rank.new.view.locks held.new }
    ensures locked { Locked at rank.old.view rank.new.view held.old held.new }
    ensures lasts { OnOk result (Lasts (hold_of rank.new.view.locks at)) }
    ensures names { IfErr result (λ why. (named_by why ≡ names_nothing) ⊎ (named_by why ≡ names_object at)) }
    ensures refused { IfErr result (λ why. Explains window.now.shape rank.old.view rank.new.view why) }
    ensures follows { Follows rank.old.view rank.new.view }
{
    if let Err(word) = rank.share_try(window, at) {
        return Err(TxnRefused::Busy {
            object: at,
            want: Want::Share,
            word,
        });
    }
    match held.put(at, Mode::Shared) {
        Ok(()) => Ok(()),
        Err(none) => {
            rank.share_leave(window, at);
            Err(none.into())
        }
    }
}

/// Sees to it that an object is marked.
pub(crate) fn mark<L: Law>(
    window: &Window<L>,
    rank: &mut Rank<L>,
    held: &mut HeldObjects,
    at: DPtr,
) -> Result<(), TxnRefused>
    requires window { rank.old.window ≡ window.now }
    requires object { IsBlock window.now.shape at }
    requires locks { HasLocks window.now.shape rank.old.view.locks held.old }
    requires clean { rank.old.view.dirty ≡ [] }
    requires closed { rank.old.view.stamps.opened ≡ [] }
    ensures window { rank.new.window ≡ rank.old.window }
    ensures spares { rank.new.spares ≡ rank.old.spares }
    ensures locks { HasLocks window.now.shape rank.new.view.locks held.new }
    ensures locked { Locked at rank.old.view rank.new.view held.old held.new }
    ensures marked { OnOk result (hold_of held.new at ≡ Some Marked) }
    ensures names { IfErr result (λ why. (named_by why ≡ names_nothing) ⊎ (named_by why ≡ names_object at)) }
    ensures refused { IfErr result (λ why. Explains window.now.shape rank.old.view rank.new.view why) }
    ensures follows { Follows rank.old.view rank.new.view }
{
    match held.mode(at) {
        Some(Mode::Marked) => Ok(()),
        Some(Mode::Shared) => rise(window, rank, held, at),
        None => mark_anew(window, rank, held, at),
    }
}

/// Marks an object that it shares.
fn rise<L: Law>(
    window: &Window<L>,
    rank: &mut Rank<L>,
    held: &mut HeldObjects,
    at: DPtr,
) -> Result<(), TxnRefused>
    requires window { rank.old.window ≡ window.now }
    requires object { IsBlock window.now.shape at }
    requires shared { hold_of held.old at ≡ Some Shared }
    requires locks { HasLocks window.now.shape rank.old.view.locks held.old }
    ensures window { rank.new.window ≡ rank.old.window }
    ensures spares { rank.new.spares ≡ rank.old.spares }
    ensures locks { HasLocks window.now.shape rank.new.view.locks held.new }
    ensures locked { Locked at rank.old.view rank.new.view held.old held.new }
    ensures marked { OnOk result (hold_of held.new at ≡ Some Marked) }
    ensures names { IfErr result (λ why. (named_by why ≡ names_nothing) ⊎ (named_by why ≡ names_object at)) }
    ensures refused { IfErr result (λ why. Explains window.now.shape rank.old.view rank.new.view why) }
    ensures follows { Follows rank.old.view rank.new.view }
{
    if let Err(word) = rank.rise_try(window, at) {
        return Err(TxnRefused::Busy {
            object: at,
            want: Want::Rise,
            word,
        });
    }
    let Ok(()) = held.put(at, Mode::Marked) else {
        unreachable!()
    };
    Ok(())
}

/// Marks an object that isn't locked.
fn mark_anew<L: Law>(
    window: &Window<L>,
    rank: &mut Rank<L>,
    held: &mut HeldObjects,
    at: DPtr,
) -> Result<(), TxnRefused>
    requires window { rank.old.window ≡ window.now }
    requires object { IsBlock window.now.shape at }
    requires absent { hold_of held.old at ≡ None }
    requires locks { HasLocks window.now.shape rank.old.view.locks held.old }
    requires clean { rank.old.view.dirty ≡ [] }
    requires closed { rank.old.view.stamps.opened ≡ [] }
    ensures window { rank.new.window ≡ rank.old.window }
    ensures spares { rank.new.spares ≡ rank.old.spares }
    ensures locks { HasLocks window.now.shape rank.new.view.locks held.new }
    ensures locked { Locked at rank.old.view rank.new.view held.old held.new }
    ensures marked { OnOk result (hold_of held.new at ≡ Some Marked) }
    ensures names { IfErr result (λ why. (named_by why ≡ names_nothing) ⊎ (named_by why ≡ names_object at)) }
    ensures refused { IfErr result (λ why. Explains window.now.shape rank.old.view rank.new.view why) }
    ensures follows { Follows rank.old.view rank.new.view }
{
    if let Err(word) = rank.mark_try(window, at) {
        return Err(TxnRefused::Busy {
            object: at,
            want: Want::Mark,
            word,
        });
    }
    match held.put(at, Mode::Marked) {
        Ok(()) => Ok(()),
        Err(none) => {
            rank.mark_leave(window, at);
            Err(none.into())
        }
    }
}
