ghost use Rattle.std.specs.Prelude.{◌≡◌, ◌++◌, OnOk};
ghost use Rattle.graph_model.specs.Graph.{edge_at, edges_from, edges_to};
ghost use Rattle.graph_undo.specs.Undo.{as_vertex, as_edge, as_edges, as_names, as_next_edge, noted_before};
ghost use Rattle.map_graph.specs.Lines.{entries_at, entry_of};

use super::MapGraph;
use crate::journal::Journal;
use crate::undo::Undo;
use edge_index::{EdgeKey, KeySet};
use gdi_kinds::{Call, Duplicate, NoMemory};

// What is noted before a call, so that it can be taken back.
impl MapGraph {
    /// Notes what a call may change.
    pub(super) fn note(&self, call: &Call, journal: &mut Journal) -> Result<(), NoMemory>
        ensures { OnOk result (journal.new ≡ journal.old ++ noted_before self.now.graph call.now) }
    {
        match call {
            Call::NewLabel { .. } => self.note_names(journal),
            Call::NewType { .. } => self.note_names(journal),
            Call::Vertex { id } => self.note_vertex(*id, journal),
            Call::DropVertex { id } => self.note_all_at(*id, journal),
            Call::Tag { id, .. } => self.note_vertex(*id, journal),
            Call::Untag { id, .. } => self.note_vertex(*id, journal),
            Call::Set { id, .. } => self.note_vertex(*id, journal),
            Call::Add { id, .. } => self.note_vertex(*id, journal),
            Call::Unset { id, .. } => self.note_vertex(*id, journal),
            Call::Edge { source, .. } => self.note_next_edge(*source, journal),
            Call::UEdge { source, .. } => self.note_next_edge(*source, journal),
            Call::Cut { source, ordinal } => self.note_edge(*source, *ordinal, journal),
            Call::ETag {
                source,
                ordinal,
                ..
            } => self.note_edge(*source, *ordinal, journal),
            Call::EUntag {
                source,
                ordinal,
                ..
            } => self.note_edge(*source, *ordinal, journal),
            Call::ESet {
                source,
                ordinal,
                ..
            } => self.note_edge(*source, *ordinal, journal),
            Call::EAdd {
                source,
                ordinal,
                ..
            } => self.note_edge(*source, *ordinal, journal),
            Call::EUnset {
                source,
                ordinal,
                ..
            } => self.note_edge(*source, *ordinal, journal),
            _ => Ok(()),
        }
    }

    // How many names there are.
    fn note_names(&self, journal: &mut Journal) -> Result<(), NoMemory>
        ensures { OnOk result (journal.new ≡ journal.old ++ as_names self.now.graph) }
    {
        journal.push(Undo::Names(self.labels.len(), self.types.len()))
    }

    // A vertex, where it is there.
    fn note_vertex(&self, id: u64, journal: &mut Journal) -> Result<(), NoMemory>
        ensures { OnOk result (journal.new ≡ journal.old ++ as_vertex self.now.graph id) }
    {
        let Some(vertex) = self.vertex(id) else {
            return journal.push(Undo::Vertex(id, None));
        };
        let before = vertex.copy(self.alloc)?;
        journal.push(Undo::Vertex(id, Some(before)))
    }

    // An edge, where it is there.
    fn note_edge(&self, source: u64, ordinal: u64, journal: &mut Journal) -> Result<(), NoMemory>
        ensures { OnOk result (journal.new ≡ journal.old ++ as_edge self.now.graph source ordinal) }
    {
        let Some(edge) = self.edge(source, ordinal) else {
            return journal.push(Undo::Edge(source, ordinal, None));
        };
        let before = edge.copy(self.alloc)?;
        journal.push(Undo::Edge(source, ordinal, Some(before)))
    }

    // The source of an edge that may be made, and that there is no such edge yet.
    fn note_next_edge(&self, source: u64, journal: &mut Journal) -> Result<(), NoMemory>
        ensures { OnOk result (journal.new ≡ journal.old ++ (as_vertex self.now.graph source ++ as_next_edge self.now.graph source)) }
    {
        self.note_vertex(source, journal)?;
        match self.vertex(source) {
            Some(vertex) => self.note_edge(source, vertex.next(), journal),
            None => Ok(()),
        }
    }

    // A vertex and every edge at it.
    fn note_all_at(&self, id: u64, journal: &mut Journal) -> Result<(), NoMemory>
        ensures { OnOk result (journal.new ≡ journal.old
            ++ (as_edges (edges_from self.now.graph id) ++ (as_edges (edges_to self.now.graph id) ++ as_vertex self.now.graph id))) }
    {
        self.note_outward(id, journal)?;
        self.note_inward(id, journal)?;
        self.note_vertex(id, journal)
    }

    fn note_outward(&self, id: u64, journal: &mut Journal) -> Result<(), NoMemory>
        ensures { OnOk result (journal.new ≡ journal.old ++ as_edges (edges_from self.now.graph id)) }
    {
        if self.torn {
            return Err(NoMemory);
        }
        // This tells that the names are in order.
        let _count = self.edges.len();
        let Some(keys) = self.outgoing.get(id) else {
            return Ok(());
        };
        self.note_edges(keys, journal)?;
        Ok(())
    }

    fn note_inward(&self, id: u64, journal: &mut Journal) -> Result<(), NoMemory>
        ensures { OnOk result (journal.new ≡ journal.old ++ as_edges (edges_to self.now.graph id)) }
    {
        if self.torn {
            return Err(NoMemory);
        }
        // This tells that the names are in order.
        let _count = self.edges.len();
        let Some(keys) = self.incoming.get(id) else {
            return Ok(());
        };
        self.note_edges(keys, journal)?;
        Ok(())
    }

    // The edges of these names.
    fn note_edges(&self, keys: &KeySet, journal: &mut Journal) -> Result<(), NoMemory>
        ensures { OnOk result (journal.new ≡ journal.old ++ as_edges (entries_at self.now.graph.edges keys.now)) }
    {
        for key in keys.keys() {
            self.note_if_there(*key, journal)?;
        }
        Ok(())
    }

    fn note_if_there(&self, key: EdgeKey, journal: &mut Journal) -> Result<(), NoMemory>
        ensures { OnOk result (journal.new
            ≡ journal.old ++ as_edges (entry_of key (edge_at self.now.graph key.source key.ordinal))) }
    {
        let Some(edge) = self.edge(key.source(), key.ordinal()) else {
            return Ok(());
        };
        let before = edge.copy(self.alloc)?;
        journal.push(Undo::Edge(key.source(), key.ordinal(), Some(before)))
    }
}
