ghost use Rattle.std.specs.Prelude.{◌≡◌, ◌≢◌, IfOk};
ghost use Rattle.object_store.specs.declared.phase.Phase.TheVariants.{Idle};
ghost use Rattle.object_store.specs.Works.{Nowhere, Works};
ghost use Rattle.holder_codec.specs.Represents.{IsSlot};
ghost use Rattle.held_objects.specs.Knows.{Knows};
ghost use Rattle.label_index.specs.Index.{Indexes, Lists};

use crate::listed::list_slot;
use gdi_kinds::NumList;
use holder_codec::KeepsGraph;
use object_store::Store;
use std::alloc::Global;

/// The vertices that have a label, by rising identifier. Each object of the index is read once: a label may have
/// vertices in any of them.
pub fn ids<L: KeepsGraph, S: Store<L>>(
    alloc: Global,
    store: &mut S,
    label: u32,
) -> Result<NumList, S::Refused>
    requires begun { (S.state store.old).phase ≢ Idle }
    requires indexes { Knows Indexes (S.state store.old) }
    ensures works { Works L.fits S.state S.explains S.says IsSlot Nowhere store.old store.new result }
    ensures listed { IfOk result (λ ids. Lists label (S.state store.old) (S.state store.new) ids) }
{
    store.stays_sound();
    let geometry = store.geometry();
    geometry.keeps_ranges();
    let mut found = Vec::new(alloc);
    for n in 0..geometry.ranks() * geometry.slots() {
        list_slot(alloc, store, n, label, &mut found)?;
    }
    found.sort_unstable();
    Ok(NumList::from_vec(found))
}
