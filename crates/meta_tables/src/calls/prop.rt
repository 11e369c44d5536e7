ghost use Rattle.std.specs.Prelude.{◌≢◌, IfOk, IfSome};
ghost use Rattle.rma_layout.specs.Placement.{metadata};
ghost use Rattle.object_store.specs.declared.phase.Phase.TheVariants.{Idle};
ghost use Rattle.object_store.specs.Works.{At, Nowhere, Works};
ghost use Rattle.held_objects.specs.Changes.{Tells, any};
ghost use Rattle.meta_tables.specs.Names.{HasNames, IsTypeOf, KnowsNames, is_type};

use crate::names::{read_names, type_of};
use crate::prop_type::PropType;
use gdi_kinds::Name;
use holder_codec::KeepsGraph;
use object_store::Store;
use std::alloc::Global;

/// The property type of a name. There is none exactly where no type has this name.
pub fn prop<L: KeepsGraph, S: Store<L>>(
    alloc: Global,
    store: &mut S,
    name: &Name,
) -> Result<Option<PropType>, S::Refused>
    requires begun { (S.state store.old).phase ≢ Idle }
    requires names { KnowsNames any (S.state store.old) }
    ensures works { Works L.fits S.state S.explains S.says (At metadata) Nowhere store.old store.new result }
    ensures found { IfOk result (λ found. Tells HasNames (IsTypeOf name.now found) (S.state store.old) (S.state store.new)) }
    ensures in_use { IfOk result (λ found. IfSome found (λ type. KnowsNames (is_type type.number) (S.state store.new))) }
{
    let meta = read_names(alloc, store)?;
    Ok(type_of(&meta, name))
}
