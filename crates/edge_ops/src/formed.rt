ghost use Rattle.std.specs.Prelude.{◌≡◌, IfOk, OnOk};
ghost use Rattle.rma_layout.specs.Placement.{FitsOneWord};
ghost use Rattle.object_store.specs.declared.phase.Phase.TheVariants.{Writing};
ghost use Rattle.object_store.specs.Works.{Nowhere, Works};
ghost use Rattle.holder_codec.specs.Edges.{FormFits, RecordFits};
ghost use Rattle.edge_ops.specs.Ending.{AreHolders, WritesEnds, ends_made, holder_with_in};
ghost use Rattle.edge_ops.specs.Ends.{Either};
ghost use Rattle.edge_ops.specs.Forming.{IsOpen, ends_formed};

use crate::ends::Ends;
use crate::new_edge::with_in;
use crate::opened::Opened;
use crate::settle_ends::put_ends;
use gdi_kinds::NoMemory;
use holder_codec::{EdgeForm, EdgeRecord, KeepsGraph};
use object_store::Store;
use rma_layout::DPtr;
use std::alloc::Global;

/// Gives both records of an edge a form.
pub(crate) fn set_form<L: KeepsGraph, S: Store<L>>(
    alloc: Global,
    store: &mut S,
    source: DPtr,
    opened: Opened,
    form: EdgeForm,
) -> Result<(), S::Refused>
    requires begun { (S.state store.old).phase ≡ Writing }
    requires open { IsOpen source opened (S.state store.old) }
    requires form { FormFits form }
    ensures works { Works L.fits S.state S.explains S.says (Either source opened.edge.other_at) Nowhere store.old store.new result }
    ensures wrote { OnOk result (WritesEnds source opened.edge.other_at (ends_formed source form opened.edge opened.ends) (S.state store.old) (S.state store.new)) }
{
    let Opened { edge, ends } = opened;
    let target = edge.other_at;
    let made = with_form(ends, source, edge, form);
    // As many records are as many words.
    put_ends(alloc, store, source, target, made)
}

fn with_form(ends: Ends, at: DPtr, edge: EdgeRecord, form: EdgeForm) -> Result<Ends, NoMemory>
    requires holders { AreHolders ends }
    requires at { FitsOneWord at }
    requires edge { RecordFits edge }
    requires form { FormFits form }
    ensures made { IfOk result (λ made. made ≡ ends_formed at form edge ends) }
    ensures is { IfOk result AreHolders }
{
    let out = EdgeRecord { form, ..edge };
    let into = EdgeRecord {
        inward: true,
        other: ends.source.id,
        other_at: at,
        ..out
    };
    with_both(ends, out, into)
}

fn with_both(ends: Ends, out: EdgeRecord, into: EdgeRecord) -> Result<Ends, NoMemory>
    requires holders { AreHolders ends }
    requires out { RecordFits out }
    requires into { RecordFits into }
    ensures made { IfOk result (λ made. made ≡ ends_made (holder_with_in out) (holder_with_in into) ends) }
    ensures is { IfOk result AreHolders }
{
    let Ends { source, target } = ends;
    let source = with_in(source, out)?;
    match target {
        None => {
            let source = with_in(source, into)?;
            Ok(Ends {
                source,
                target: None,
            })
        }
        Some(target) => {
            let target = with_in(target, into)?;
            Ok(Ends {
                source,
                target: Some(target),
            })
        }
    }
}
