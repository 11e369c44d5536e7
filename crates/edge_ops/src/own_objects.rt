ghost use Rattle.std.specs.Prelude.{◌≡◌, ◌≢◌, OnOk};
ghost use Rattle.std.specs.List.{Contains};
ghost use Rattle.object_store.specs.declared.phase.Phase.TheVariants.{Idle, Writing};
ghost use Rattle.object_store.specs.Works.{Looks, Nowhere, Works};
ghost use Rattle.holder_codec.specs.declared.edge_record.EdgeRecord.{EdgeRecord};
ghost use Rattle.edge_ops.specs.Opening.{OwnIsBlock, OwnOf};
ghost use Rattle.edge_ops.specs.Parting.{ClearsOwns, IsOwnAmong, OpensOwns, OwnIsKnown, OwnMayWrite};

use crate::own_object::clear_own;
use held_objects::look;
use holder_codec::{EdgeForm, EdgeHolder, EdgeRecord, KeepsGraph};
use object_store::Store;
use std::alloc::Global;

/// Reads the own objects of heavy edges among these, so that they may be written.
pub(crate) fn open_owns<L: KeepsGraph, S: Store<L>>(
    alloc: Global,
    store: &mut S,
    edges: &[EdgeRecord],
) -> Result<(), S::Refused>
    requires begun { (S.state store.old).phase ≢ Idle }
    requires owns { (edge : EdgeRecord) → Contains edges.now edge → OwnIsKnown edge.form (S.state store.old) }
    ensures works { Works L.fits S.state S.explains S.says (λ _. IsOwnAmong edges.now) Nowhere store.old store.new result }
    ensures opened { OnOk result (OpensOwns edges.now (S.state store.old) (S.state store.new)) }
{
    store.stays_sound();
    for edge in edges {
        open_own(alloc, store, edge.form)?;
    }
    Ok(())
}

fn open_own<L: KeepsGraph, S: Store<L>>(
    alloc: Global,
    store: &mut S,
    form: EdgeForm,
) -> Result<(), S::Refused>
    requires begun { (S.state store.old).phase ≢ Idle }
    requires own { OwnIsKnown form (S.state store.old) }
    ensures works { Works L.fits S.state S.explains S.says (OwnOf form) Nowhere store.old store.new result }
    ensures looks { OnOk result (Looks (S.state store.old) (S.state store.new)) }
    ensures may { OnOk result (OwnMayWrite form (S.state store.new)) }
{
    match form {
        EdgeForm::Heavy(own) => {
            let edge: EdgeHolder = look(alloc, store, own)?;
            drop(edge);
            Ok(())
        }
        _ => {
            store.stays_sound();
            Ok(())
        }
    }
}

/// Empties the own objects of heavy edges among these.
pub(crate) fn clear_owns<L: KeepsGraph, S: Store<L>>(
    alloc: Global,
    store: &mut S,
    edges: &[EdgeRecord],
) -> Result<(), S::Refused>
    requires begun { (S.state store.old).phase ≡ Writing }
    requires blocks { (edge : EdgeRecord) → Contains edges.now edge → OwnIsBlock edge.form (S.state store.old).shape }
    requires may { (edge : EdgeRecord) → Contains edges.now edge → OwnMayWrite edge.form (S.state store.old) }
    ensures works { Works L.fits S.state S.explains S.says (λ _. IsOwnAmong edges.now) Nowhere store.old store.new result }
    ensures cleared { OnOk result (ClearsOwns edges.now (S.state store.old) (S.state store.new)) }
{
    store.stays_sound();
    for edge in edges {
        clear_own(alloc, store, edge.form)?;
    }
    Ok(())
}
