ghost use Rattle.std.specs.Prelude.{◌≡◌, ◌≢◌, ◌*◌, ◌<◌, ◌++◌, OnOk};
ghost use Rattle.object_store.specs.declared.phase.Phase.TheVariants.{Idle};
ghost use Rattle.object_store.specs.Works.{Nowhere, Works};
ghost use Rattle.holder_codec.specs.Represents.{IsSlot};
ghost use Rattle.held_objects.specs.Knows.{Knows};
ghost use Rattle.rma_layout.specs.Shape.{Shape};
ghost use Rattle.label_index.specs.Entries.{slot_at};
ghost use Rattle.label_index.specs.Index.{Indexes, ListsSlot, ids_of};

use gdi_kinds::NoMemory;
use held_objects::look;
use holder_codec::{IndexHolder, KeepsGraph};
use object_store::{Store, give_up};
use rma_layout::{DPtr, Geometry};
use std::alloc::Global;

/// Puts the vertices of a label in the slot of a number behind others.
pub(crate) fn list_slot<L: KeepsGraph, S: Store<L>>(
    alloc: Global,
    store: &mut S,
    n: u64,
    label: u32,
    ids: &mut Vec<u64>,
) -> Result<(), S::Refused>
    requires begun { (S.state store.old).phase ≢ Idle }
    requires slot { let shape = (S.state store.old).shape in n < shape.ranks * shape.slots }
    requires indexes { Knows Indexes (S.state store.old) }
    ensures works { Works L.fits S.state S.explains S.says IsSlot Nowhere store.old store.new result }
    ensures listed { OnOk result (ListsSlot label n (S.state store.old) (S.state store.new) ids.old.items ids.new.items) }
{
    let geometry = store.geometry();
    geometry.keeps_ranges();
    let at = place_of(&geometry, n);
    let index = look(alloc, store, at)?;
    let Ok(()) = list(&index, label, ids) else {
        return Err(give_up(store));
    };
    Ok(())
}

/// The slot of a number, rank after rank.
fn place_of(geometry: &Geometry, n: u64) -> DPtr
    requires { n < geometry.now.ranks * geometry.now.slots }
    ensures { result ≡ slot_at geometry.now n }
{
    let slots = geometry.slots();
    let _ranks = geometry.ranks();
    let rank = n / slots;
    DPtr::new(rank as u16, 1 + geometry.buckets() + n % slots)
}

fn list(index: &IndexHolder, label: u32, ids: &mut Vec<u64>) -> Result<(), NoMemory>
    ensures { OnOk result (ids.new.items ≡ ids.old.items ++ ids_of label index.now.entries) }
{
    for entry in index.entries.as_slice() {
        if entry.label == label {
            ids.push(entry.id)?;
        }
    }
    Ok(())
}
