ghost use Rattle.std.specs.Prelude.{◌≡◌, [], IfErr, IfOk};
ghost use Rattle.object_store.specs.declared.phase.Phase.TheVariants.{Writing};
ghost use Rattle.object_store.specs.Works.{At, Fell, Went};
ghost use Rattle.holder_codec.specs.Vertex.{IsVertexHolder};
ghost use Rattle.vertex_ops.specs.Vertices.{HomeOf, Makes, bare, holder_for};

use gdi_kinds::U32List;
use held_objects::put;
use holder_codec::{EdgeRecords, HeldProps, KeepsGraph, VertexHolder};
use object_store::Store;
use rma_layout::DPtr;
use std::alloc::Global;

/// A new object on the home rank of an identifier, which holds a vertex without labels, properties and edges.
pub fn make<L: KeepsGraph, S: Store<L>>(
    alloc: Global,
    store: &mut S,
    id: u64,
) -> Result<DPtr, S::Refused>
    requires begun { (S.state store.old).phase ≡ Writing }
    ensures went { IfOk result (λ made. Went L.fits S.state S.explains (At made) (HomeOf id) store.old store.new) }
    ensures fell { IfErr result (λ why. Fell L.fits S.state S.explains S.says (λ _ _. ⊥) (HomeOf id) store.old store.new why) }
    ensures made { IfOk result (λ made. Makes id (S.state store.old) (S.state store.new) made) }
{
    let geometry = store.geometry();
    geometry.keeps_ranges();
    let made = store.fresh(geometry.home(id))?;
    put(alloc, store, made, Ok(bare(alloc, id)))?;
    Ok(made)
}

/// A vertex without labels, properties and edges.
fn bare(alloc: Global, id: u64) -> VertexHolder
    ensures value { result ≡ holder_for (bare id []) }
    ensures is { IsVertexHolder result }
{
    VertexHolder {
        id,
        next: 0,
        labels: U32List::new(alloc),
        props: HeldProps::new(alloc),
        edges: EdgeRecords::new(alloc),
    }
}
