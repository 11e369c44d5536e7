ghost use Rattle.std.specs.Prelude.{◌≡◌, IfOk};
ghost use Rattle.rma_layout.specs.Placement.{IsBlock};
ghost use Rattle.object_store.specs.declared.phase.Phase.TheVariants.{Writing};
ghost use Rattle.object_store.specs.Works.{Nowhere, Works};
ghost use Rattle.held_objects.specs.Changes.{any};
ghost use Rattle.edge_ops.specs.Cutting.{CutsEdge};
ghost use Rattle.edge_ops.specs.HeldEdges.{AtEdge, KnowsOut};

use crate::opened::{Opened, open};
use crate::own_object::clear_own;
use crate::settle_ends::settle_ends;
use crate::without::without_edge;
use gdi_kinds::Reply;
use held_objects::Change;
use holder_codec::KeepsGraph;
use object_store::Store;
use rma_layout::DPtr;
use std::alloc::Global;

/// Takes the edge of an ordinal from a vertex away, at both ends and with its own object: Done. NoEdge where there is none;
/// then nothing is changed.
pub fn cut<L: KeepsGraph, S: Store<L>>(
    alloc: Global,
    store: &mut S,
    source: DPtr,
    ordinal: u64,
) -> Result<Reply, S::Refused>
    requires begun { (S.state store.old).phase ≡ Writing }
    requires source { IsBlock (S.state store.old).shape source }
    requires edge { KnowsOut source ordinal any (S.state store.old) }
    ensures works { Works L.fits S.state S.explains S.says (AtEdge source ordinal (S.state store.old)) Nowhere store.old store.new result }
    ensures cut { IfOk result (λ reply. CutsEdge source ordinal (S.state store.old) (S.state store.new) reply) }
{
    let Some(opened) = open(alloc, store, source, ordinal)? else {
        return Ok(Reply::NoEdge);
    };
    let Opened { edge, ends } = opened;
    let target = edge.other_at;
    let made = Ok(Change::Made(without_edge(ends, ordinal)));
    // Fewer records are never too many words.
    let reply = settle_ends(alloc, store, source, target, made, Reply::Done)?;
    clear_own(alloc, store, edge.form)?;
    Ok(reply)
}
