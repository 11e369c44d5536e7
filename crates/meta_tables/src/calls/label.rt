ghost use Rattle.std.specs.Prelude.{◌≡◌, ◌≢◌, IfOk, IfSome};
ghost use Rattle.rma_layout.specs.Placement.{metadata};
ghost use Rattle.object_store.specs.declared.phase.Phase.TheVariants.{Idle};
ghost use Rattle.object_store.specs.Works.{At, Nowhere, Works};
ghost use Rattle.held_objects.specs.Changes.{Tells, any};
ghost use Rattle.meta_tables.specs.Names.{HasNames, KnowsNames, is_label, label_number};

use crate::names::{label_number, read_names};
use gdi_kinds::Name;
use holder_codec::KeepsGraph;
use object_store::Store;
use std::alloc::Global;

/// The number of a label, its place among the labels from 0. There is none exactly where no label has this name.
pub fn label<L: KeepsGraph, S: Store<L>>(
    alloc: Global,
    store: &mut S,
    name: &Name,
) -> Result<Option<u32>, S::Refused>
    requires begun { (S.state store.old).phase ≢ Idle }
    requires names { KnowsNames any (S.state store.old) }
    ensures works { Works L.fits S.state S.explains S.says (At metadata) Nowhere store.old store.new result }
    ensures found { IfOk result (λ found. Tells HasNames (λ meta. found ≡ label_number name.now meta) (S.state store.old) (S.state store.new)) }
    ensures in_use { IfOk result (λ found. IfSome found (λ number. KnowsNames (is_label number) (S.state store.new))) }
{
    let meta = read_names(alloc, store)?;
    Ok(label_number(&meta, name))
}
