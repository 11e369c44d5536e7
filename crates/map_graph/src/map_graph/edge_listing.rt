ghost use Rattle.std.specs.Prelude.{◌≡◌, ◌++◌, [], map, IfOk, OnOk};
ghost use Rattle.std.specs.List.{filter};
ghost use Rattle.graph_model.specs.Graph.{edge_at, edges_from, edges_to};
ghost use Rattle.graph_model.specs.ListCalls.{passes_test};
ghost use Rattle.graph_model.specs.Lookups.{out_lines, in_lines, lines_at};
ghost use Rattle.graph_model.specs.WellFormed.{IsWellFormed};
ghost use Rattle.map_graph.specs.Lines.{entries_at, entry_of, is_listed, line_at};

use super::MapGraph;
use crate::edge_lines::{Wanted, line_at};
use edge_index::{EdgeKey, KeySet};
use gdi_kinds::{Dir, EdgeList, NoMemory, Test};

// The lines of the edges at a vertex that pass a constraint.
impl MapGraph {
    /// The lines of the edges at a vertex that pass.
    pub(super) fn lines_at(
        &self,
        id: u64,
        dir: Dir,
        test: &Option<Test>,
    ) -> Result<EdgeList, NoMemory>
        requires { IsWellFormed self.now.graph }
        ensures { IfOk result (λ lines. lines
            ≡ lines_at self.now.graph (λ entry. passes_test self.now.graph test.now entry.1.labels entry.1.props) id dir) }
    {
        match dir {
            Dir::Outward => Ok(self.out_lines(id, Wanted::Directed, test)?),
            Dir::Inward => Ok(self.in_lines(id, Wanted::Directed, test)?),
            Dir::Undirected => Ok(self.lines_of_both(id, Wanted::Undirected, test)?),
            Dir::Either => Ok(self.lines_of_both(id, Wanted::Any, test)?),
        }
    }

    // The lines of edges from a vertex, and then of those to it.
    fn lines_of_both(
        &self,
        id: u64,
        wanted: Wanted,
        test: &Option<Test>,
    ) -> Result<EdgeList, NoMemory>
        requires { IsWellFormed self.now.graph }
        ensures { IfOk result (λ lines. lines ≡ out_lines (filter (is_listed self.now.graph wanted test.now) (edges_from self.now.graph id))
            ++ in_lines (filter (is_listed self.now.graph wanted test.now) (edges_to self.now.graph id))) }
    {
        let outward = self.out_lines(id, wanted, test)?;
        let inward = self.in_lines(id, wanted, test)?;
        let mut lines = outward.into_vec();
        lines.extend_from_slice(inward.as_slice())?;
        Ok(EdgeList::from_vec(lines))
    }

    // The lines of edges from a vertex.
    fn out_lines(&self, id: u64, wanted: Wanted, test: &Option<Test>) -> Result<EdgeList, NoMemory>
        requires { IsWellFormed self.now.graph }
        ensures { IfOk result (λ lines. lines ≡ out_lines (filter (is_listed self.now.graph wanted test.now) (edges_from self.now.graph id))) }
    {
        if self.torn {
            return Err(NoMemory);
        }
        // This tells that the names are in order.
        let _count = self.edges.len();
        let Some(keys) = self.outgoing.get(id) else {
            return Ok(EdgeList::new(self.alloc));
        };
        let lines = self.lines_of(keys, true, wanted, test)?;
        Ok(lines)
    }

    // The lines of edges to a vertex.
    fn in_lines(&self, id: u64, wanted: Wanted, test: &Option<Test>) -> Result<EdgeList, NoMemory>
        requires { IsWellFormed self.now.graph }
        ensures { IfOk result (λ lines. lines ≡ in_lines (filter (is_listed self.now.graph wanted test.now) (edges_to self.now.graph id))) }
    {
        if self.torn {
            return Err(NoMemory);
        }
        // This tells that the names are in order.
        let _count = self.edges.len();
        let Some(keys) = self.incoming.get(id) else {
            return Ok(EdgeList::new(self.alloc));
        };
        let lines = self.lines_of(keys, false, wanted, test)?;
        Ok(lines)
    }

    // The lines of the edges with these names that are wanted and pass, as their sources have them or as their targets do.
    fn lines_of(
        &self,
        keys: &KeySet,
        at_source: bool,
        wanted: Wanted,
        test: &Option<Test>,
    ) -> Result<EdgeList, NoMemory>
        requires { IsWellFormed self.now.graph }
        ensures { IfOk result (λ lines. lines ≡ map (line_at at_source)
            (filter (is_listed self.now.graph wanted test.now) (entries_at self.now.graph.edges keys.now))) }
    {
        let mut lines = EdgeList::new(self.alloc());
        for key in keys.keys() {
            self.push_line(&mut lines, *key, at_source, wanted, test)?;
        }
        Ok(lines)
    }

    // Puts the line of an edge behind others, if it is there, is wanted and passes.
    fn push_line(
        &self,
        lines: &mut EdgeList,
        key: EdgeKey,
        at_source: bool,
        wanted: Wanted,
        test: &Option<Test>,
    ) -> Result<(), NoMemory>
        requires { IsWellFormed self.now.graph }
        ensures { OnOk result (lines.new ≡ lines.old ++ map (line_at at_source)
            (filter (is_listed self.now.graph wanted test.now) (entry_of key (edge_at self.now.graph key.source key.ordinal)))) }
    {
        let Some(edge) = self.edge(key.source(), key.ordinal()) else {
            return Ok(());
        };
        if !wanted.has(edge.undirected()) {
            return Ok(());
        }
        if !self.passes(test, edge.labels(), edge.props())? {
            return Ok(());
        }
        lines.push(line_at(key, edge, at_source))?;
        Ok(())
    }
}
