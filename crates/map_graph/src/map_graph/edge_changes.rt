ghost use Rattle.std.specs.Prelude.{◌≡◌, ◌+◌, ◌<◌, ◌≤◌, ◌^◌, ◌&&◌, ◌||◌, ◌==◌, not, [], ◌∷◌, ◌++◌, Some, None, IsSome, IsSomeAnd, OnOk};
ghost use Rattle.std.specs.Option.{option_to_list};
ghost use Rattle.std.specs.List.{filter, list_any, AllByRecursion};
ghost use Rattle.graph_model.specs.Maps.{with_at, without, has, add, take_out};
ghost use Rattle.graph_model.specs.Graph.{Edge, Vertex, vertex_at, edge_at};
ghost use Rattle.graph_model.specs.Lookups.{values_at};
ghost use Rattle.graph_model.specs.Sizes.{words_of_props};
ghost use Rattle.graph_model.specs.VertexCalls.{with_vertex};
ghost use Rattle.graph_model.specs.EdgeCalls.{with_edge};
ghost use Rattle.map_graph.specs.Plain.{is_among};

use super::MapGraph;
use edge_index::EdgeKey;
use gdi_kinds::{NoMemory, Value};
use graph_parts::HeldEdge;

// What calls write at edges.
impl MapGraph {
    /// Makes an edge, whose name has the next ordinal of its source.
    pub(super) fn put_edge(
        &mut self,
        key: EdgeKey,
        target: u64,
        undirected: bool,
        label: Option<u32>,
    ) -> Result<(), NoMemory>
        requires source { IsSomeAnd (vertex_at self.old.graph key.source) (λ vertex. key.ordinal ≡ vertex.next) }
        requires target { IsSome (vertex_at self.old.graph target) }
        requires ordinal { key.ordinal + 1 < 2 ^ 64 }
        ensures shape { self.new.shape ≡ self.old.shape }
        ensures graph { OnOk result ((vertex : Vertex) → vertex_at self.old.graph key.source ≡ Some vertex
            → self.new.graph ≡ with_edge (with_vertex self.old.graph key.source (record vertex { next = vertex.next + 1 })) key.source key.ordinal
            (record { target = target; undirected = undirected; labels = option_to_list label; props = [] })) }
    {
        if self.torn {
            return Err(NoMemory);
        }
        let edge = HeldEdge::new(self.alloc, target, undirected, label)?;
        let source = key.source();
        self.torn = true;
        self.outgoing.add(source, key)?;
        self.incoming.add(target, key)?;
        self.edges.insert(key, edge)?;
        let Some(vertex) = self.vertices.get_mut(&source) else {
            unreachable!()
        };
        vertex.raise_next();
        self.torn = false;
        Ok(())
    }

    /// Takes out an edge, where it is there.
    pub(super) fn take_edge(&mut self, key: EdgeKey) -> Result<(), NoMemory>
        ensures shape { self.new.shape ≡ self.old.shape }
        ensures graph { OnOk result (self.new.graph ≡ (record self.old.graph {
          edges = filter (λ entry. not (entry.0.source == key.source && entry.0.ordinal == key.ordinal)) self.old.graph.edges;
        })) }
    {
        if self.torn {
            return Err(NoMemory);
        }
        let Some(edge) = self.edges.remove(&key) else {
            return Ok(());
        };
        self.outgoing.take_out(key.source(), key);
        self.incoming.take_out(edge.target(), key);
        Ok(())
    }

    /// Cuts every edge from a vertex and to it.
    pub(super) fn cut_edges_at(&mut self, id: u64) -> Result<(), NoMemory>
        ensures shape { self.new.shape ≡ self.old.shape }
        ensures graph { OnOk result (self.new.graph ≡ (record self.old.graph {
          edges = filter (λ entry. not (entry.0.source == id || entry.1.target == id)) self.old.graph.edges;
        })) }
    {
        if self.torn {
            return Err(NoMemory);
        }
        // This tells that the names are in order.
        let _count = self.edges.len();
        let outward = self.outgoing.to_vec(id)?;
        let inward = self.incoming.to_vec(id)?;
        self.cut_each(outward.as_slice())?;
        self.cut_each(inward.as_slice())?;
        Ok(())
    }

    fn cut_each(&mut self, keys: &[EdgeKey]) -> Result<(), NoMemory>
        ensures shape { self.new.shape ≡ self.old.shape }
        ensures graph { OnOk result (self.new.graph ≡ (record self.old.graph {
          edges = filter (λ entry. not (is_among keys.now entry.0)) self.old.graph.edges;
        })) }
    {
        for key in keys {
            self.take_edge(*key)?;
        }
        Ok(())
    }

    pub(super) fn add_edge_label(&mut self, key: EdgeKey, label: u32) -> Result<(), NoMemory>
        requires { IsSome (edge_at self.old.graph key.source key.ordinal) }
        ensures shape { self.new.shape ≡ self.old.shape }
        ensures graph { OnOk result ((edge : Edge) → edge_at self.old.graph key.source key.ordinal ≡ Some edge
            → self.new.graph ≡ with_edge self.old.graph key.source key.ordinal (record edge { labels = add label edge.labels })) }
    {
        let Some(edge) = self.edges.get_mut(&key) else {
            unreachable!()
        };
        edge.add_label(label)?;
        Ok(())
    }

    pub(super) fn remove_edge_label(&mut self, key: EdgeKey, label: u32)
        requires { IsSome (edge_at self.old.graph key.source key.ordinal) }
        ensures shape { self.new.shape ≡ self.old.shape }
        ensures graph { (edge : Edge) → edge_at self.old.graph key.source key.ordinal ≡ Some edge
            → self.new.graph ≡ with_edge self.old.graph key.source key.ordinal (record edge { labels = take_out label edge.labels }) }
    {
        let Some(edge) = self.edges.get_mut(&key) else {
            unreachable!()
        };
        edge.remove_label(label);
    }

    /// Gives a property of an edge this value alone.
    pub(super) fn set_edge_value(
        &mut self,
        key: EdgeKey,
        ty: u32,
        value: Value,
    ) -> Result<(), NoMemory>
        requires there { IsSome (edge_at self.old.graph key.source key.ordinal) }
        requires words { (edge : Edge) → edge_at self.old.graph key.source key.ordinal ≡ Some edge
            → words_of_props (with_at edge.props ty (value ∷ [])) ≤ 1048576 }
        ensures shape { self.new.shape ≡ self.old.shape }
        ensures graph { OnOk result ((edge : Edge) → edge_at self.old.graph key.source key.ordinal ≡ Some edge
            → self.new.graph ≡ with_edge self.old.graph key.source key.ordinal (record edge { props = with_at edge.props ty (value ∷ []) })) }
    {
        let alloc = self.alloc;
        let Some(edge) = self.edges.get_mut(&key) else {
            unreachable!()
        };
        edge.set_value(alloc, ty, value)?;
        Ok(())
    }

    /// Puts a value behind those of a property of an edge.
    pub(super) fn add_edge_value(
        &mut self,
        key: EdgeKey,
        ty: u32,
        value: Value,
    ) -> Result<(), NoMemory>
        requires there { IsSome (edge_at self.old.graph key.source key.ordinal) }
        requires words { (edge : Edge) → edge_at self.old.graph key.source key.ordinal ≡ Some edge
            → words_of_props (with_at edge.props ty (values_at edge.props ty ++ value ∷ [])) ≤ 1048576 }
        ensures shape { self.new.shape ≡ self.old.shape }
        ensures graph { OnOk result ((edge : Edge) → edge_at self.old.graph key.source key.ordinal ≡ Some edge
            → self.new.graph ≡ with_edge self.old.graph key.source key.ordinal
            (record edge { props = with_at edge.props ty (values_at edge.props ty ++ value ∷ []) })) }
    {
        let alloc = self.alloc;
        let Some(edge) = self.edges.get_mut(&key) else {
            unreachable!()
        };
        edge.add_value(alloc, ty, value)?;
        Ok(())
    }

    /// Takes out a property of an edge.
    pub(super) fn remove_edge_values(&mut self, key: EdgeKey, ty: u32)
        requires { IsSome (edge_at self.old.graph key.source key.ordinal) }
        ensures shape { self.new.shape ≡ self.old.shape }
        ensures graph { (edge : Edge) → edge_at self.old.graph key.source key.ordinal ≡ Some edge
            → self.new.graph ≡ with_edge self.old.graph key.source key.ordinal (record edge { props = without edge.props ty }) }
    {
        let Some(edge) = self.edges.get_mut(&key) else {
            unreachable!()
        };
        edge.remove_values(ty);
    }
}
