ghost use Rattle.std.specs.Prelude.{◌≡◌, IfOk};
ghost use Rattle.rma_layout.specs.Placement.{IsBlock};
ghost use Rattle.object_store.specs.declared.phase.Phase.TheVariants.{Writing};
ghost use Rattle.object_store.specs.Works.{Nowhere, Works};
ghost use Rattle.held_objects.specs.Changes.{any};
ghost use Rattle.vertex_ops.specs.Vertices.{KnowsVertex};
ghost use Rattle.edge_ops.specs.Ends.{Either, MakesEdge, labels_of};

use crate::beside::beside;
use crate::new_edge::with_new_edge;
use crate::settle_ends::settle_ends;
use gdi_kinds::Reply;
use held_objects::look;
use holder_codec::{KeepsGraph, VertexHolder};
use object_store::Store;
use rma_layout::DPtr;
use std::alloc::Global;

/// Makes an edge with a label or none from one vertex to another, or to itself: EdgeIs, with the next ordinal of the
/// source, which rises. TooLarge where the source has given out all ordinals, or where the object of an end would have more
/// words than an object may have; then nothing is changed.
pub fn make<L: KeepsGraph, S: Store<L>>(
    alloc: Global,
    store: &mut S,
    source: DPtr,
    target: DPtr,
    label: Option<u32>,
    undirected: bool,
) -> Result<Reply, S::Refused>
    requires begun { (S.state store.old).phase ≡ Writing }
    requires source { IsBlock (S.state store.old).shape source }
    requires target { IsBlock (S.state store.old).shape target }
    requires source_vertex { KnowsVertex source any (S.state store.old) }
    requires target_vertex { KnowsVertex target any (S.state store.old) }
    ensures works { Works L.fits S.state S.explains S.says (Either source target) Nowhere store.old store.new result }
    ensures made { IfOk result (λ reply. MakesEdge source target (labels_of label) undirected (S.state store.old) (S.state store.new) reply) }
{
    let geometry = store.geometry();
    geometry.keeps_ranges();
    let from: VertexHolder = look(alloc, store, source)?;
    let done = Reply::EdgeIs(from.id, from.next);
    let ends = beside(alloc, store, source, from, target)?;
    let made = with_new_edge(ends, source, target, label, undirected);
    settle_ends(alloc, store, source, target, made, done)
}
