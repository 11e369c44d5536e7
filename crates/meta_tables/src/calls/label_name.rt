ghost use Rattle.std.specs.Prelude.{◌≡◌, ◌≢◌, IfOk, Some, slice_get};
ghost use Rattle.rma_layout.specs.Placement.{metadata};
ghost use Rattle.object_store.specs.declared.phase.Phase.TheVariants.{Idle};
ghost use Rattle.object_store.specs.Works.{At, Nowhere, Works};
ghost use Rattle.held_objects.specs.Changes.{Tells};
ghost use Rattle.meta_tables.specs.Names.{HasNames, KnowsNames, is_label};

use crate::names::read_names;
use gdi_kinds::Name;
use holder_codec::KeepsGraph;
use object_store::Store;
use std::alloc::Global;

/// The name of a label by its number, which is in use.
pub fn label_name<L: KeepsGraph, S: Store<L>>(
    alloc: Global,
    store: &mut S,
    number: u32,
) -> Result<Name, S::Refused>
    requires begun { (S.state store.old).phase ≢ Idle }
    requires in_use { KnowsNames (is_label number) (S.state store.old) }
    ensures works { Works L.fits S.state S.explains S.says (At metadata) Nowhere store.old store.new result }
    ensures found { IfOk result (λ name. Tells HasNames (λ meta. slice_get meta.labels number ≡ Some name) (S.state store.old) (S.state store.new)) }
{
    let meta = read_names(alloc, store)?;
    Ok(*meta.labels.at(number as usize))
}
