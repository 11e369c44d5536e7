ghost use Rattle.std.specs.Prelude.{IfErr, IfOk};
ghost use Rattle.gdi_kinds.specs.declared.call.Call.TheVariants.{Props};
ghost use Rattle.object_store.specs.Works.{Works};
ghost use Rattle.held_objects.specs.Knows.{Knows};
ghost use Rattle.graph_law.specs.Calls.{AppliesCall, MayCall, MayMakeOn, RefusesCall, Stands};
ghost use Rattle.graph_law.specs.Law.{Fits};
ghost use Rattle.graph_vertices.specs.Finding.{IsAbout};

use crate::finding::{find_names, find_vertex};
use crate::shown::lines_of;
use gdi_kinds::{NoMemory, Reply};
use graph_law::GraphLaw;
use object_store::{Store, give_up};
use std::alloc::Global;

/// The values of the properties of a vertex, by the numbers of their types. NoVertex where there is none.
pub fn vertex_props<S: Store<GraphLaw>>(
    alloc: Global,
    store: &mut S,
    id: u64,
) -> Result<Reply, S::Refused>
    requires may { MayCall (Props id) (S.state store.old) }
    requires stands { Knows Stands (S.state store.old) }
    ensures works { Works Fits S.state S.explains S.says (IsAbout id) (MayMakeOn (Props id)) store.old store.new result }
    ensures applied { IfOk result (λ reply. AppliesCall (Props id) (S.state store.old) (S.state store.new) reply) }
    ensures refused { IfErr result (λ why. RefusesCall (Props id) (S.state store.old) (S.says why)) }
{
    let geometry = store.geometry();
    geometry.keeps_ranges();
    let found = find_vertex(alloc, store, id)?;
    let vertex = match found {
        Some(vertex) => vertex,
        None => return Ok(Reply::NoVertex(id)),
    };
    let names = find_names(alloc, store)?;
    match lines_of(alloc, &names.types, &vertex.props) {
        Ok(lines) => Ok(Reply::Props(lines)),
        Err(NoMemory) => Err(give_up(store)),
    }
}
