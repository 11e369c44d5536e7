ghost use Rattle.std.specs.Prelude.{IfErr, IfOk};
ghost use Rattle.gdi_kinds.specs.declared.call.Call.TheVariants.{Degree};
ghost use Rattle.object_store.specs.Works.{Works};
ghost use Rattle.held_objects.specs.Knows.{Knows};
ghost use Rattle.graph_law.specs.Calls.{AppliesCall, MayCall, MayMakeOn, RefusesCall, Stands};
ghost use Rattle.graph_law.specs.Law.{Fits};
ghost use Rattle.graph_vertices.specs.Finding.{IsAbout};

use crate::finding::find_vertex;
use crate::listed::degree_of;
use gdi_kinds::{Dir, Reply};
use graph_law::GraphLaw;
use object_store::Store;
use std::alloc::Global;

/// How many ends of edges a vertex has in a direction; a self loop has two. NoVertex where there is none.
pub fn vertex_degree<S: Store<GraphLaw>>(
    alloc: Global,
    store: &mut S,
    id: u64,
    dir: Dir,
) -> Result<Reply, S::Refused>
    requires may { MayCall (Degree id dir) (S.state store.old) }
    requires stands { Knows Stands (S.state store.old) }
    ensures works { Works Fits S.state S.explains S.says (IsAbout id) (MayMakeOn (Degree id dir)) store.old store.new result }
    ensures applied { IfOk result (λ reply. AppliesCall (Degree id dir) (S.state store.old) (S.state store.new) reply) }
    ensures refused { IfErr result (λ why. RefusesCall (Degree id dir) (S.state store.old) (S.says why)) }
{
    let geometry = store.geometry();
    geometry.keeps_ranges();
    let found = find_vertex(alloc, store, id)?;
    let vertex = match found {
        Some(vertex) => vertex,
        None => return Ok(Reply::NoVertex(id)),
    };
    let degree = degree_of(vertex.edges.as_slice(), dir);
    Ok(Reply::Count(degree as u64))
}
