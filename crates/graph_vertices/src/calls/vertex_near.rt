ghost use Rattle.std.specs.Prelude.{IfErr, IfOk};
ghost use Rattle.gdi_kinds.specs.declared.call.Call.TheVariants.{Near};
ghost use Rattle.object_store.specs.Works.{Works};
ghost use Rattle.held_objects.specs.Knows.{Knows};
ghost use Rattle.graph_law.specs.Calls.{AppliesCall, MayCall, MayMakeOn, RefusesCall, Stands};
ghost use Rattle.graph_law.specs.Law.{Fits};
ghost use Rattle.graph_vertices.specs.Finding.{IsAbout};

use crate::finding::find_vertex;
use crate::listed::ends_of;
use gdi_kinds::{Dir, NoMemory, Reply};
use graph_law::GraphLaw;
use object_store::{Store, give_up};
use std::alloc::Global;

/// The distinct vertices across the edges of a vertex in a direction, rising; a self loop leads to the vertex itself.
/// NoVertex where there is none.
pub fn vertex_near<S: Store<GraphLaw>>(
    alloc: Global,
    store: &mut S,
    id: u64,
    dir: Dir,
) -> Result<Reply, S::Refused>
    requires may { MayCall (Near id dir) (S.state store.old) }
    requires stands { Knows Stands (S.state store.old) }
    ensures works { Works Fits S.state S.explains S.says (IsAbout id) (MayMakeOn (Near id dir)) store.old store.new result }
    ensures applied { IfOk result (λ reply. AppliesCall (Near id dir) (S.state store.old) (S.state store.new) reply) }
    ensures refused { IfErr result (λ why. RefusesCall (Near id dir) (S.state store.old) (S.says why)) }
{
    let geometry = store.geometry();
    geometry.keeps_ranges();
    let found = find_vertex(alloc, store, id)?;
    let vertex = match found {
        Some(vertex) => vertex,
        None => return Ok(Reply::NoVertex(id)),
    };
    match ends_of(alloc, vertex.edges.as_slice(), dir) {
        Ok(ids) => Ok(Reply::Ids(ids)),
        Err(NoMemory) => Err(give_up(store)),
    }
}
