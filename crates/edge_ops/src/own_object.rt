ghost use Rattle.std.specs.Prelude.{◌≡◌, ◌≢◌, IfOk, IsTrue, OnOk, nat_lt};
ghost use Rattle.std.specs.List.{AllByRecursion};
ghost use Rattle.object_store.specs.declared.phase.Phase.TheVariants.{Idle, Writing};
ghost use Rattle.object_store.specs.Calls.{MayWrite};
ghost use Rattle.object_store.specs.Works.{Nowhere, Works};
ghost use Rattle.holder_codec.specs.EdgeObject.{IsEdgeHolder};
ghost use Rattle.holder_codec.specs.Order.{is_rising};
ghost use Rattle.holder_codec.specs.Vertex.{LabelFits};
ghost use Rattle.holder_codec.specs.Edges.{RecordFits};
ghost use Rattle.held_objects.specs.Knows.{Knows};
ghost use Rattle.edge_ops.specs.Ends.{labels_of};
ghost use Rattle.edge_ops.specs.Opening.{ClearsOwn, FindsEdge, IsOwnSpelled, MatchForm, OwnIsBlock, OwnOf, light_holder};

use gdi_kinds::{NoMemory, U32List};
use held_objects::look;
use holder_codec::{EdgeForm, EdgeHolder, EdgeRecord, HeldProps, KeepsGraph};
use object_store::{Store, give_up};
use object_words::Words;
use std::alloc::Global;

/// The edge of a record at its source: a light one from the record, a heavy one from its object.
pub(crate) fn open_edge<L: KeepsGraph, S: Store<L>>(
    alloc: Global,
    store: &mut S,
    id: u64,
    edge: &EdgeRecord,
) -> Result<EdgeHolder, S::Refused>
    requires begun { (S.state store.old).phase ≢ Idle }
    requires own { OwnIsBlock edge.now.form (S.state store.old).shape }
    requires spelled { Knows (IsOwnSpelled edge.now.form) (S.state store.old) }
    requires fits { RecordFits edge.now }
    ensures works { Works L.fits S.state S.explains S.says (OwnOf edge.now.form) Nowhere store.old store.new result }
    ensures holder { IfOk result IsEdgeHolder }
    ensures found { IfOk result (λ found. FindsEdge id edge.now (S.state store.old) (S.state store.new) found) }
{
    let label = match edge.form {
        EdgeForm::Heavy(at) => {
            let found = look(alloc, store, at)?;
            return Ok(found);
        }
        EdgeForm::Plain => None,
        EdgeForm::Labelled(label) => Some(label),
    };
    match light_edge(alloc, id, edge, label) {
        Ok(found) => {
            store.stays_sound();
            Ok(found)
        }
        Err(NoMemory) => Err(give_up(store)),
    }
}

/// An edge that has a label at most, and no property.
fn light_edge(
    alloc: Global,
    id: u64,
    edge: &EdgeRecord,
    label: Option<u32>,
) -> Result<EdgeHolder, NoMemory>
    requires { RecordFits edge.now }
    ensures holder { IfOk result IsEdgeHolder }
    ensures found { IfOk result (λ found. found ≡ light_holder id edge.now (labels_of label)) }
{
    let labels = one_label(alloc, label)?;
    Ok(EdgeHolder {
        source: id,
        ordinal: edge.ordinal,
        target: edge.other,
        labels,
        props: HeldProps::new(alloc),
    })
}

fn one_label(alloc: Global, label: Option<u32>) -> Result<U32List, NoMemory>
    ensures labels { IfOk result (λ labels. labels ≡ labels_of label) }
    ensures fit { IfOk result (AllByRecursion LabelFits) }
    ensures rise { IfOk result (λ labels. IsTrue (is_rising nat_lt labels)) }
{
    let mut labels = U32List::new(alloc);
    let Some(label) = label else {
        return Ok(labels);
    };
    labels.push(label)?;
    Ok(labels)
}

/// Empties the edge's own object, if it has one.
pub(crate) fn clear_own<L: KeepsGraph, S: Store<L>>(
    alloc: Global,
    store: &mut S,
    form: EdgeForm,
) -> Result<(), S::Refused>
    requires begun { (S.state store.old).phase ≡ Writing }
    requires own { OwnIsBlock form (S.state store.old).shape }
    requires may { MatchForm form (λ _. Unit {0}) (MayWrite (S.state store.old)) }
    ensures works { Works L.fits S.state S.explains S.says (OwnOf form) Nowhere store.old store.new result }
    ensures cleared { OnOk result (ClearsOwn form (S.state store.old) (S.state store.new)) }
{
    match form {
        EdgeForm::Heavy(own) => {
            store.write(own, Words::new(alloc))?;
            Ok(())
        }
        _ => {
            store.stays_sound();
            Ok(())
        }
    }
}
