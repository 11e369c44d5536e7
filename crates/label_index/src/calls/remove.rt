ghost use Rattle.std.specs.Prelude.{◌≡◌, OnOk};
ghost use Rattle.object_store.specs.declared.phase.Phase.TheVariants.{Writing};
ghost use Rattle.object_store.specs.Works.{Nowhere, Works};
ghost use Rattle.held_objects.specs.Knows.{Knows};
ghost use Rattle.label_index.specs.Index.{Has, IsSlotFor, Removes};

use crate::slot::{read_slot, slot_without, write_slot};
use holder_codec::{IndexEntry, KeepsGraph};
use object_store::Store;
use std::alloc::Global;

/// Takes out a label of a vertex, which the index has.
#[tactic(auto, using(crate::proofs::Knows::has_indexes))]
pub fn remove<L: KeepsGraph, S: Store<L>>(
    alloc: Global,
    store: &mut S,
    label: u32,
    id: u64,
) -> Result<(), S::Refused>
    requires begun { (S.state store.old).phase ≡ Writing }
    requires present { Knows (Has (label, id)) (S.state store.old) }
    ensures works { Works L.fits S.state S.explains S.says (IsSlotFor (label, id)) Nowhere store.old store.new result }
    ensures removed { OnOk result (Removes (label, id) (S.state store.old) (S.state store.new)) }
{
    let entry = IndexEntry { label, id };
    let index = read_slot(alloc, store, entry)?;
    let made = slot_without(alloc, &index, entry);
    write_slot(alloc, store, entry, made)?;
    Ok(())
}
