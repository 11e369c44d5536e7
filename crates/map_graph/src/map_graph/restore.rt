ghost use Rattle.std.specs.Prelude.{◌≡◌, ◌<◌, ◌≤◌, ◌+◌, [], Some, None, take, IsSome, IsSomeAnd, OnOk};
ghost use Rattle.graph_model.specs.Graph.{Graph, vertex_at, edge_at};
ghost use Rattle.graph_model.specs.Maps.{without};
ghost use Rattle.graph_model.specs.VertexCalls.{with_vertex};
ghost use Rattle.graph_model.specs.EdgeCalls.{with_edge};
ghost use Rattle.graph_undo.specs.Undo.{undone, rolled_back, HasEnds, KeepEnds};
ghost use Rattle.map_graph.specs.Noted.{undo_of};
ghost use Rattle.map_graph.specs.Plain.{words_of_labels, words_of_types};

use super::MapGraph;
use super::names::words_of_name;
use crate::ModelRefused;
use crate::journal::Journal;
use crate::undo::Undo;
use edge_index::EdgeKey;
use gdi_kinds::{ListOf, Name, NameList, NoMemory};
use graph_parts::{HeldEdge, HeldType, HeldVertex};
use std::mem;

// How calls are taken back.
impl MapGraph {
    /// Takes back what was noted, the last step first. It costs what was noted, however large the graph is.
    pub fn roll_back(&mut self, journal: &mut Journal) -> Result<(), ModelRefused>
        requires { KeepEnds journal.old self.old.graph }
        ensures shape { self.new.shape ≡ self.old.shape }
        ensures graph { OnOk result (self.new.graph ≡ rolled_back journal.old self.old.graph) }
        ensures journal { OnOk result (journal.new ≡ []) }
    {
        while let Some(step) = journal.pop() {
            self.undo(step)?;
        }
        Ok(())
    }

    fn undo(&mut self, step: Undo) -> Result<(), NoMemory>
        requires { HasEnds (undone (undo_of step) self.old.graph) }
        ensures shape { self.new.shape ≡ self.old.shape }
        ensures graph { OnOk result (self.new.graph ≡ undone (undo_of step) self.old.graph) }
    {
        match step {
            Undo::Names(labels, types) => {
                self.keep_names(labels, types);
                Ok(())
            }
            Undo::Vertex(id, before) => match before {
                Some(vertex) => self.put_vertex(id, vertex),
                None => self.take_new_vertex(id),
            },
            Undo::Edge(source, ordinal, before) => match before {
                Some(edge) => self.put_edge_back(EdgeKey::new(source, ordinal), edge),
                None => self.take_edge(EdgeKey::new(source, ordinal)),
            },
        }
    }

    // Keeps so many labels and types, the first ones.
    fn keep_names(&mut self, labels: usize, types: usize)
        ensures shape { self.new.shape ≡ self.old.shape }
        ensures graph { self.new.graph ≡ (record self.old.graph { labels = take labels self.old.graph.labels; types = take types self.old.graph.types }) }
    {
        let mut kept = mem::replace(&mut self.labels, NameList::new(self.alloc)).into_vec();
        let words = keep_labels(&mut kept, labels, self.name_words);
        self.labels = NameList::from_vec(kept);
        let mut kept = mem::replace(&mut self.types, ListOf::new(self.alloc)).into_vec();
        self.name_words = keep_types(&mut kept, types, words);
        self.types = ListOf::from_vec(kept);
    }

    // Takes out a vertex that wasn't there, where it is there now.
    fn take_new_vertex(&mut self, id: u64) -> Result<(), NoMemory>
        requires { HasEnds (record self.old.graph { vertices = without self.old.graph.vertices id }) }
        ensures shape { self.new.shape ≡ self.old.shape }
        ensures graph { OnOk result (self.new.graph ≡ (record self.old.graph { vertices = without self.old.graph.vertices id })) }
    {
        let Some(_vertex) = self.vertex(id) else {
            return Ok(());
        };
        self.take_vertex(id)
    }

    // Gives a vertex what it was.
    fn put_vertex(&mut self, id: u64, vertex: HeldVertex) -> Result<(), NoMemory>
        requires { HasEnds (with_vertex self.old.graph id vertex) }
        ensures shape { self.new.shape ≡ self.old.shape }
        ensures graph { OnOk result (self.new.graph ≡ with_vertex self.old.graph id vertex) }
    {
        if self.torn {
            return Err(NoMemory);
        }
        let bucket = self.geometry.bucket(id).raw();
        self.torn = true;
        vertex.count_labels(&self.geometry, id, &mut self.slot_counts)?;
        let found = self.vertices.insert(id, vertex)?;
        match found {
            Some(before) => {
                before.uncount_labels(&self.geometry, id, &mut self.slot_counts)?;
                self.torn = false;
                Ok(())
            }
            None => {
                self.bucket_counts.raise(bucket)?;
                self.torn = false;
                Ok(())
            }
        }
    }

    // Gives an edge what it was.
    fn put_edge_back(&mut self, key: EdgeKey, edge: HeldEdge) -> Result<(), NoMemory>
        requires { HasEnds (with_edge self.old.graph key.source key.ordinal edge) }
        ensures shape { self.new.shape ≡ self.old.shape }
        ensures graph { OnOk result (self.new.graph ≡ with_edge self.old.graph key.source key.ordinal edge) }
    {
        // This tells that the names are in order.
        let _count = self.edges.len();
        self.take_edge(key)?;
        self.insert_edge(key, edge)?;
        Ok(())
    }

    // Puts in an edge that isn't there.
    fn insert_edge(&mut self, key: EdgeKey, edge: HeldEdge) -> Result<(), NoMemory>
        requires absent { edge_at self.old.graph key.source key.ordinal ≡ None }
        requires source { IsSomeAnd (vertex_at self.old.graph key.source) (λ vertex. key.ordinal < vertex.next) }
        requires target { IsSome (vertex_at self.old.graph edge.target) }
        ensures shape { self.new.shape ≡ self.old.shape }
        ensures graph { OnOk result (self.new.graph ≡ with_edge self.old.graph key.source key.ordinal edge) }
    {
        if self.torn {
            return Err(NoMemory);
        }
        let source = key.source();
        let target = edge.target();
        self.torn = true;
        self.outgoing.add(source, key)?;
        self.incoming.add(target, key)?;
        self.edges.insert(key, edge)?;
        self.torn = false;
        Ok(())
    }
}

// Keeps so many labels, and answers the words that are left of these.
fn keep_labels(labels: &mut Vec<Name>, count: usize, words: u64) -> u64
    requires { words_of_labels labels.old.items ≤ words }
    ensures items { labels.new.items ≡ take count labels.old.items }
    ensures words { result + words_of_labels labels.old.items ≡ words + words_of_labels labels.new.items }
{
    let mut left = words;
    while labels.len() > count {
        let Some(name) = labels.pop() else {
            return left;
        };
        left -= 1 + words_of_name(&name);
    }
    left
}

// Keeps so many types, and answers the words that are left of these.
fn keep_types(types: &mut Vec<HeldType>, count: usize, words: u64) -> u64
    requires { words_of_types types.old.items ≤ words }
    ensures items { types.new.items ≡ take count types.old.items }
    ensures words { result + words_of_types types.old.items ≡ words + words_of_types types.new.items }
{
    let mut left = words;
    while types.len() > count {
        let Some(ty) = types.pop() else {
            return left;
        };
        left -= 2 + words_of_name(ty.name());
    }
    left
}
