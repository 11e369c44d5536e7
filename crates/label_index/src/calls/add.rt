ghost use Rattle.std.specs.Prelude.{◌≡◌, IfOk};
ghost use Rattle.object_store.specs.declared.phase.Phase.TheVariants.{Writing};
ghost use Rattle.object_store.specs.Works.{Nowhere, Works};
ghost use Rattle.held_objects.specs.Knows.{Knows};
ghost use Rattle.label_index.specs.Index.{Adds, IsSlotFor, Lacks};

use crate::slot::{has_room, read_slot, slot_with, write_slot};
use holder_codec::{IndexEntry, KeepsGraph};
use object_store::Store;
use std::alloc::Global;

/// Enters a label of a vertex, which the index lacks. It answers false, and changes nothing, exactly where the object of
/// the index would have more words than an object may have.
#[tactic(auto, using(crate::proofs::Knows::lacks_indexes))]
pub fn add<L: KeepsGraph, S: Store<L>>(
    alloc: Global,
    store: &mut S,
    label: u32,
    id: u64,
) -> Result<bool, S::Refused>
    requires begun { (S.state store.old).phase ≡ Writing }
    requires absent { Knows (Lacks (label, id)) (S.state store.old) }
    ensures works { Works L.fits S.state S.explains S.says (IsSlotFor (label, id)) Nowhere store.old store.new result }
    ensures added { IfOk result (λ added. Adds (record { label = label; id = id }) (S.state store.old) (S.state store.new) added) }
{
    let entry = IndexEntry { label, id };
    let index = read_slot(alloc, store, entry)?;
    if !has_room(&index) {
        return Ok(false);
    }
    let made = slot_with(alloc, &index, entry);
    write_slot(alloc, store, entry, made)?;
    Ok(true)
}
