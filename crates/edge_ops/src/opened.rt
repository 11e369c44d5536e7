ghost use Rattle.std.specs.Prelude.{◌≡◌, ◌≢◌, IfOk};
ghost use Rattle.rma_layout.specs.Placement.{IsBlock};
ghost use Rattle.object_store.specs.declared.phase.Phase.TheVariants.{Idle};
ghost use Rattle.object_store.specs.Works.{Nowhere, Works};
ghost use Rattle.held_objects.specs.Changes.{any};
ghost use Rattle.edge_ops.specs.HeldEdges.{AtEdge, KnowsOut};
ghost use Rattle.edge_ops.specs.Opening.{OpensEnds};

use crate::beside::beside;
use crate::ends::Ends;
use crate::own_object::open_edge;
use crate::records::record_out;
use held_objects::look;
use holder_codec::{EdgeRecord, KeepsGraph, VertexHolder};
use object_store::Store;
use rma_layout::DPtr;
use std::alloc::Global;

/// An edge with the vertices at its ends, each read so that it may be written.
#[derive(Debug, Drop)]
pub(crate) struct Opened {
    /// The record at the source.
    pub edge: EdgeRecord,
    pub ends: Ends,
}

/// Reads the objects at the edge of an ordinal, if there is one.
pub(crate) fn open<L: KeepsGraph, S: Store<L>>(
    alloc: Global,
    store: &mut S,
    source: DPtr,
    ordinal: u64,
) -> Result<Option<Opened>, S::Refused>
    requires begun { (S.state store.old).phase ≢ Idle }
    requires source { IsBlock (S.state store.old).shape source }
    requires edge { KnowsOut source ordinal any (S.state store.old) }
    ensures works { Works L.fits S.state S.explains S.says (AtEdge source ordinal (S.state store.old)) Nowhere store.old store.new result }
    ensures opened { IfOk result (λ opened. OpensEnds source ordinal (S.state store.old) (S.state store.new) opened) }
{
    let from: VertexHolder = look(alloc, store, source)?;
    let Some(edge) = record_out(&from, ordinal) else {
        return Ok(None);
    };
    let holder = open_edge(alloc, store, from.id, &edge)?;
    drop(holder);
    let ends = beside(alloc, store, source, from, edge.other_at)?;
    Ok(Some(Opened { edge, ends }))
}
