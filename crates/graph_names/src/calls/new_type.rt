ghost use Rattle.std.specs.Prelude.{IfErr, IfOk};
ghost use Rattle.gdi_kinds.specs.declared.call.Call.TheVariants.{NewType};
ghost use Rattle.rma_layout.specs.Placement.{metadata};
ghost use Rattle.object_store.specs.Works.{At, Works};
ghost use Rattle.held_objects.specs.Knows.{Knows};
ghost use Rattle.graph_law.specs.Calls.{AppliesCall, MayCall, MayMakeOn, RefusesCall, Stands};
ghost use Rattle.graph_law.specs.Law.{Fits};

use gdi_kinds::{Kind, Name, Reply};
use graph_law::GraphLaw;
use meta_tables::add_type;
use object_store::Store;
use std::alloc::Global;

/// Makes a property type: Done. Exists where there is one of this name, TooLarge where the names would have more words
/// than an object may have.
pub fn new_type<S: Store<GraphLaw>>(
    alloc: Global,
    store: &mut S,
    name: &Name,
    kind: Kind,
    many: bool,
) -> Result<Reply, S::Refused>
    requires may { MayCall (NewType name.now kind many) (S.state store.old) }
    requires stands { Knows Stands (S.state store.old) }
    ensures works { Works Fits S.state S.explains S.says (At metadata) (MayMakeOn (NewType name.now kind many)) store.old store.new result }
    ensures applied { IfOk result (λ reply. AppliesCall (NewType name.now kind many) (S.state store.old) (S.state store.new) reply) }
    ensures refused { IfErr result (λ why. RefusesCall (NewType name.now kind many) (S.state store.old) (S.says why)) }
{
    let geometry = store.geometry();
    geometry.keeps_ranges();
    let _ = name.bytes();
    let reply = add_type(alloc, store, name, kind, many)?;
    Ok(reply)
}
