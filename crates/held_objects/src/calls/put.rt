ghost use Rattle.std.specs.Prelude.{◌≡◌, ◌≤◌, IfOk, IsOkAnd, OnOk, length};
ghost use Rattle.rma_layout.specs.Placement.{IsBlock};
ghost use Rattle.object_store.specs.declared.phase.Phase.TheVariants.{Writing};
ghost use Rattle.object_store.specs.Calls.{MayWrite, WritesObject};
ghost use Rattle.object_store.specs.Works.{At, Nowhere, Works};
ghost use Rattle.rma_layout.specs.declared.limits.TheConstants.{MOST_WORDS};

use crate::holder::Holder;
use gdi_kinds::NoMemory;
use holder_codec::KeepsGraph;
use object_store::{Store, give_up};
use rma_layout::DPtr;
use std::alloc::Global;

/// Gives an object what it is to hold. Where that was not made for want of memory, the transaction is given up.
pub fn put<L: KeepsGraph, S: Store<L>, H: Holder>(
    alloc: Global,
    store: &mut S,
    at: DPtr,
    made: Result<H, NoMemory>,
) -> Result<(), S::Refused>
    requires begun { (S.state store.old).phase ≡ Writing }
    requires object { IsBlock (S.state store.old).shape at }
    requires may { MayWrite (S.state store.old) at }
    requires is { IfOk made H.IsHolder }
    requires few { IfOk made (λ held. length (H.words_of held) ≤ MOST_WORDS) }
    ensures works { Works L.fits S.state S.explains S.says (At at) Nowhere store.old store.new result }
    ensures wrote { OnOk result (IsOkAnd made (λ held. WritesObject at (H.words_of held) (S.state store.old) (S.state store.new))) }
{
    let Ok(held) = made else {
        return Err(give_up(store));
    };
    match held.write_words(alloc) {
        Ok(words) => store.write(at, words),
        Err(NoMemory) => Err(give_up(store)),
    }
}
