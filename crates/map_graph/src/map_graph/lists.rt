ghost use Rattle.std.specs.Prelude.{◌≡◌, map, IfOk};
ghost use Rattle.gdi_kinds.specs.declared.call.Call.TheVariants as call;
ghost use Rattle.graph_model.specs.Maps.{set_of};
ghost use Rattle.graph_model.specs.ListCalls.{other_end};
ghost use Rattle.graph_model.specs.WellFormed.{IsWellFormed};
ghost use Rattle.map_graph.specs.Plain.{Answers, IsList};

use super::MapGraph;
use crate::ModelRefused;
use gdi_kinds::{Call, Dir, EdgeLine, EdgeList, NoMemory, NumList, Reply, Test};
use std::alloc::Global;
use std::collections::BTreeSet;

// The calls that list, find or count edges and vertices.
impl MapGraph {
    pub(super) fn list(&self, call: &Call) -> Result<Reply, ModelRefused>
        requires list { IsList call.now }
        requires well_formed { IsWellFormed self.now.graph }
        ensures { IfOk result (Answers self.now call.now self.now) }
    {
        match call {
            Call::Tags { id } => self.tags(*id),
            Call::Props { id } => self.props(*id),
            Call::ETags { source, ordinal } => self.edge_tags(*source, *ordinal),
            Call::EProps { source, ordinal } => self.edge_props(*source, *ordinal),
            Call::Edges { id, dir, test } => self.edges(*id, *dir, test),
            Call::Near { id, dir } => self.near(*id, *dir),
            Call::Degree { id, dir } => self.degree(*id, *dir),
            Call::Find { label, test } => self.find(label, test),
            Call::Hood { id, depth } => self.hood(*id, *depth),
            Call::Levels { id } => self.levels(*id),
            Call::Parts => self.parts(),
            Call::Scan { label, test } => self.scan(label, test),
            Call::Vertices => Ok(self.count_vertices()),
            Call::Arcs => Ok(self.count_edges()),
            _ => unreachable!(),
        }
    }

    fn edges(&self, id: u64, dir: Dir, test: &Option<Test>) -> Result<Reply, ModelRefused>
        requires { IsWellFormed self.now.graph }
        ensures { IfOk result (Answers self.now (call.Edges id dir test.now) self.now) }
    {
        if let Err(refusal) = self.names_known(test) {
            return Ok(refusal);
        }
        let Some(_vertex) = self.vertex(id) else {
            return Ok(Reply::NoVertex(id));
        };
        if let Err(refusal) = self.kinds_agree(test) {
            return Ok(refusal);
        }
        let lines = self.lines_at(id, dir, test)?;
        Ok(Reply::Edges(lines))
    }

    fn near(&self, id: u64, dir: Dir) -> Result<Reply, ModelRefused>
        requires { IsWellFormed self.now.graph }
        ensures { IfOk result (Answers self.now (call.Near id dir) self.now) }
    {
        let Some(_vertex) = self.vertex(id) else {
            return Ok(Reply::NoVertex(id));
        };
        let lines = self.lines_at(id, dir, &None)?;
        Ok(Reply::Ids(other_ends(self.alloc(), id, &lines)?))
    }

    fn degree(&self, id: u64, dir: Dir) -> Result<Reply, ModelRefused>
        requires { IsWellFormed self.now.graph }
        ensures { IfOk result (Answers self.now (call.Degree id dir) self.now) }
    {
        let Some(_vertex) = self.vertex(id) else {
            return Ok(Reply::NoVertex(id));
        };
        let lines = self.lines_at(id, dir, &None)?;
        Ok(Reply::Count(lines.len() as u64))
    }

    fn count_vertices(&self) -> Reply
        ensures { Answers self.now call.Vertices self.now result }
    {
        Reply::Count(self.vertices.len() as u64)
    }

    fn count_edges(&self) -> Reply
        ensures { Answers self.now call.Arcs self.now result }
    {
        Reply::Count(self.edges.len() as u64)
    }
}

// The distinct ends across from a vertex, rising.
fn other_ends(alloc: Global, id: u64, lines: &EdgeList) -> Result<NumList, NoMemory>
    ensures { IfOk result (λ ids. ids ≡ set_of (map (other_end id) lines.now)) }
{
    let mut ends = BTreeSet::new(alloc);
    let mut left = lines.len();
    while left > 0 {
        left -= 1;
        ends.insert(other_end(id, lines.at(left)))?;
    }
    Ok(NumList::from_vec(ends.iter().copied().collect(alloc)?))
}

// The end of an edge across from a vertex.
fn other_end(id: u64, line: &EdgeLine) -> u64
    ensures { result ≡ other_end id line.now }
{
    if line.source == id {
        line.target
    } else {
        line.source
    }
}
