ghost use Rattle.std.specs.Prelude.{◌≡◌, ◌+◌, ◌^◌, ◌<◌, IfOk};
ghost use Rattle.rma_layout.specs.Placement.{FitsOneWord};
ghost use Rattle.holder_codec.specs.Edges.{RecordFits};
ghost use Rattle.holder_codec.specs.Represents.{light_form};
ghost use Rattle.holder_codec.specs.Vertex.{IsVertexHolder};
ghost use Rattle.held_objects.specs.Changes.{IfMade};
ghost use Rattle.edge_ops.specs.Ending.{AreHolders, ends_made, holder_with_in, holder_with_out, new_edge, target_of};
ghost use Rattle.edge_ops.specs.Ends.{labels_of};

use crate::ends::Ends;
use crate::records::with_record;
use gdi_kinds::{NoMemory, Reply};
use held_objects::Change;
use holder_codec::{EdgeForm, EdgeRecord, VertexHolder};
use rma_layout::DPtr;

/// The ends with a new edge between them, unless the source has given out all ordinals.
pub(crate) fn with_new_edge(
    ends: Ends,
    source: DPtr,
    target: DPtr,
    label: Option<u32>,
    undirected: bool,
) -> Result<Change<Ends>, NoMemory>
    requires holders { AreHolders ends }
    requires source { FitsOneWord source }
    requires target { FitsOneWord target }
    ensures made { IfOk result (λ change. change ≡ new_edge source target (labels_of label) undirected ends) }
    ensures is { IfOk result (IfMade AreHolders) }
{
    let ordinal = ends.source.next;
    if ordinal == u64::MAX {
        return Ok(Change::Refused(Reply::TooLarge));
    }
    let to = target_id(&ends);
    let from = ends.source.id;
    let out = EdgeRecord {
        inward: false,
        undirected,
        ordinal,
        other: to,
        other_at: target,
        form: light_form(label),
    };
    let into = EdgeRecord {
        inward: true,
        undirected,
        ordinal,
        other: from,
        other_at: source,
        form: light_form(label),
    };
    let made = with_records(ends, out, into)?;
    Ok(Change::Made(made))
}

fn with_records(ends: Ends, out: EdgeRecord, into: EdgeRecord) -> Result<Ends, NoMemory>
    requires holders { AreHolders ends }
    requires next { ends.source.next + 1 < 2 ^ 64 }
    requires out { RecordFits out }
    requires into { RecordFits into }
    ensures made { IfOk result (λ made. made ≡ ends_made (holder_with_out out) (holder_with_in into) ends) }
    ensures is { IfOk result AreHolders }
{
    let Ends { source, target } = ends;
    let source = with_out(source, out)?;
    match target {
        None => {
            let source = with_in(source, into)?;
            Ok(Ends {
                source,
                target: None,
            })
        }
        Some(target) => {
            let target = with_in(target, into)?;
            Ok(Ends {
                source,
                target: Some(target),
            })
        }
    }
}

fn with_out(holder: VertexHolder, edge: EdgeRecord) -> Result<VertexHolder, NoMemory>
    requires holder { IsVertexHolder holder }
    requires next { holder.next + 1 < 2 ^ 64 }
    requires edge { RecordFits edge }
    ensures made { IfOk result (λ made. made ≡ holder_with_out edge holder) }
    ensures is { IfOk result IsVertexHolder }
{
    let VertexHolder {
        id,
        next,
        labels,
        props,
        edges,
    } = holder;
    let edges = with_record(edges, edge)?;
    Ok(VertexHolder {
        id,
        next: next + 1,
        labels,
        props,
        edges,
    })
}

/// A vertex with a record, which replaces one of the same key.
pub(crate) fn with_in(holder: VertexHolder, edge: EdgeRecord) -> Result<VertexHolder, NoMemory>
    requires holder { IsVertexHolder holder }
    requires edge { RecordFits edge }
    ensures made { IfOk result (λ made. made ≡ holder_with_in edge holder) }
    ensures is { IfOk result IsVertexHolder }
{
    let VertexHolder {
        id,
        next,
        labels,
        props,
        edges,
    } = holder;
    let edges = with_record(edges, edge)?;
    Ok(VertexHolder {
        id,
        next,
        labels,
        props,
        edges,
    })
}

fn target_id(ends: &Ends) -> u64
    ensures { result ≡ (target_of ends.now).id }
{
    match &ends.target {
        None => ends.source.id,
        Some(target) => target.id,
    }
}

fn light_form(label: Option<u32>) -> EdgeForm
    ensures { result ≡ light_form (labels_of label) }
{
    match label {
        None => EdgeForm::Plain,
        Some(label) => EdgeForm::Labelled(label),
    }
}
