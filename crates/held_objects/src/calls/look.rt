ghost use Rattle.std.specs.Prelude.{◌≢◌, IfOk};
ghost use Rattle.rma_layout.specs.Placement.{IsBlock};
ghost use Rattle.object_store.specs.declared.phase.Phase.TheVariants.{Idle};
ghost use Rattle.object_store.specs.Works.{At, Nowhere, Works};
ghost use Rattle.held_objects.specs.Knows.{Knows};
ghost use Rattle.held_objects.specs.Held.{FindsHolder, IsSpelled};

use crate::holder::Holder;
use gdi_kinds::NoMemory;
use holder_codec::KeepsGraph;
use object_store::{Store, give_up};
use rma_layout::DPtr;
use std::alloc::Global;

/// What an object holds, as the transaction finds it.
pub fn look<L: KeepsGraph, S: Store<L>, H: Holder>(
    alloc: Global,
    store: &mut S,
    at: DPtr,
) -> Result<H, S::Refused>
    requires begun { (S.state store.old).phase ≢ Idle }
    requires object { IsBlock (S.state store.old).shape at }
    requires spelled { Knows (IsSpelled H.IsHolder H.words_of at) (S.state store.old) }
    ensures works { Works L.fits S.state S.explains S.says (At at) Nowhere store.old store.new result }
    ensures found { IfOk result (λ held. FindsHolder H.IsHolder H.words_of at (S.state store.old) (S.state store.new) held) }
{
    let geometry = store.geometry();
    geometry.keeps_ranges();
    let words = store.read(at)?;
    match H::read_words(alloc, &words) {
        Ok(Some(held)) => Ok(held),
        Ok(None) => unreachable!(),
        Err(NoMemory) => Err(give_up(store)),
    }
}
