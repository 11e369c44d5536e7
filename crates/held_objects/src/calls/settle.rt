ghost use Rattle.std.specs.Prelude.{IfOk, IsOkAnd};
ghost use Rattle.std.specs.Prelude.{◌≡◌};
ghost use Rattle.rma_layout.specs.Placement.{IsBlock};
ghost use Rattle.object_store.specs.declared.phase.Phase.TheVariants.{Writing};
ghost use Rattle.object_store.specs.Calls.{MayWrite};
ghost use Rattle.object_store.specs.Works.{At, Nowhere, Works};
ghost use Rattle.held_objects.specs.Changes.{IfMade, SettlesChange};

use crate::change::Change;
use crate::holder::Holder;
use gdi_kinds::{NoMemory, Reply};
use holder_codec::KeepsGraph;
use object_store::{Store, give_up};
use rma_layout::{DPtr, MOST_WORDS};
use std::alloc::Global;

/// Gives an object what was made for it, and replies Done; or replies why nothing was made, or TooLarge where that has
/// more words than an object may have. Where it was not made for want of memory, the transaction is given up.
pub fn settle<L: KeepsGraph, S: Store<L>, H: Holder>(
    alloc: Global,
    store: &mut S,
    at: DPtr,
    change: Result<Change<H>, NoMemory>,
) -> Result<Reply, S::Refused>
    requires begun { (S.state store.old).phase ≡ Writing }
    requires object { IsBlock (S.state store.old).shape at }
    requires may { MayWrite (S.state store.old) at }
    requires is { IfOk change (IfMade H.IsHolder) }
    ensures works { Works L.fits S.state S.explains S.says (At at) Nowhere store.old store.new result }
    ensures settled { IfOk result (λ reply. IsOkAnd change (λ made. SettlesChange H.words_of at (S.state store.old) (S.state store.new) made reply)) }
{
    let held = match change {
        Ok(Change::Made(held)) => held,
        Ok(Change::Refused(reply)) => {
            store.stays_sound();
            return Ok(reply);
        }
        Err(NoMemory) => return Err(give_up(store)),
    };
    let Ok(words) = held.write_words(alloc) else {
        return Err(give_up(store));
    };
    if words.as_slice().len() as u64 > MOST_WORDS {
        store.stays_sound();
        return Ok(Reply::TooLarge);
    }
    store.write(at, words)?;
    Ok(Reply::Done)
}
