ghost use Rattle.std.specs.Prelude.{◌≡◌, IsTrue};
ghost use Rattle.holder_codec.specs.Edges.{is_record_before};
ghost use Rattle.holder_codec.specs.Order.{is_rising};
ghost use Rattle.holder_codec.specs.Vertex.{IsVertexHolder};
ghost use Rattle.edge_ops.specs.Cutting.{holder_without};
ghost use Rattle.edge_ops.specs.Ending.{AreHolders, ends_made};
ghost use Rattle.edge_ops.specs.HeldEdges.{in_key, out_key};

use crate::ends::Ends;
use crate::records::without_record;
use holder_codec::VertexHolder;

/// The ends without the records of an edge of the source.
pub(crate) fn without_edge(ends: Ends, ordinal: u64) -> Ends
    requires { AreHolders ends }
    ensures made { result ≡ ends_made (holder_without (out_key ordinal)) (holder_without (in_key ends.source.id ordinal)) ends }
    ensures is { AreHolders result }
{
    let Ends { source, target } = ends;
    let id = source.id;
    let source = without(source, (0, (0, ordinal)));
    match target {
        None => Ends {
            source: without(source, (1, (id, ordinal))),
            target: None,
        },
        Some(target) => Ends {
            source,
            target: Some(without(target, (1, (id, ordinal)))),
        },
    }
}

/// A vertex without the record of a key.
fn without(holder: VertexHolder, key: (u64, (u64, u64))) -> VertexHolder
    requires { IsVertexHolder holder }
    ensures made { result ≡ holder_without key holder }
    ensures is { IsVertexHolder result }
{
    let VertexHolder {
        id,
        next,
        labels,
        props,
        edges,
    } = holder;
    let edges = without_record(edges, key);
    VertexHolder {
        id,
        next,
        labels,
        props,
        edges,
    }
}
