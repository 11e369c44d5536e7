ghost use Rattle.std.specs.Prelude.{◌≡◌, IfErr, IfOk};
ghost use Rattle.rma_layout.specs.Placement.{IsBlock};
ghost use Rattle.object_store.specs.declared.phase.Phase.TheVariants.{Writing};
ghost use Rattle.object_store.specs.Works.{Fell, Went};
ghost use Rattle.holder_codec.specs.EdgeObject.{IsEdgeHolder};
ghost use Rattle.vertex_ops.specs.Vertices.{HomeOf};
ghost use Rattle.edge_ops.specs.HeldEdges.{AtEdge, KnowsOut, is_edge_to};
ghost use Rattle.edge_ops.specs.Keeping.{AtEdgeOrHome, KeepsEdge};

use crate::given::give;
use crate::opened::open;
use holder_codec::{EdgeHolder, KeepsGraph};
use object_store::Store;
use rma_layout::DPtr;
use std::alloc::Global;

/// Gives an edge these labels and properties in place of those that it has, and the form that they ask for: with two labels
/// or more, or with a property, it has an object of its own, which is made or emptied as the form changes. It answers false,
/// and changes nothing, exactly where that object would have more words than an object may have.
pub fn keep<L: KeepsGraph, S: Store<L>>(
    alloc: Global,
    store: &mut S,
    source: DPtr,
    holder: &EdgeHolder,
) -> Result<bool, S::Refused>
    requires begun { (S.state store.old).phase ≡ Writing }
    requires source { IsBlock (S.state store.old).shape source }
    requires edge { KnowsOut source holder.now.ordinal (is_edge_to holder.now.source holder.now.target) (S.state store.old) }
    requires holder { IsEdgeHolder holder.now }
    ensures went { IfOk result (λ _. Went L.fits S.state S.explains (AtEdgeOrHome source holder.now (S.state store.old)) (HomeOf holder.now.source) store.old store.new) }
    ensures fell { IfErr result (λ why. Fell L.fits S.state S.explains S.says (AtEdge source holder.now.ordinal (S.state store.old)) (HomeOf holder.now.source) store.old store.new why) }
    ensures kept { IfOk result (λ kept. KeepsEdge source holder.now (S.state store.old) (S.state store.new) kept) }
{
    let Some(opened) = open(alloc, store, source, holder.ordinal)? else {
        unreachable!()
    };
    give(alloc, store, source, opened, holder)
}
