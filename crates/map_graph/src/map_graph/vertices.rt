ghost use Rattle.std.specs.Prelude.{◌≡◌, ◌≤◌, ◌++◌, [], ◌∷◌, Some, IsSome, IfOk, OnOk};
ghost use Rattle.gdi_kinds.specs.declared.call.Call.TheVariants as call;
ghost use Rattle.std.specs.List.{AllByRecursion};
ghost use Rattle.graph_model.specs.Maps.{with_at, without};
ghost use Rattle.graph_model.specs.Graph.{Vertex, vertex_at};
ghost use Rattle.graph_model.specs.Lookups.{values_at};
ghost use Rattle.graph_model.specs.Sizes.{words_of_props};
ghost use Rattle.graph_model.specs.VertexCalls.{with_vertex};
ghost use Rattle.graph_model.specs.Calls.{reply_to};
ghost use Rattle.map_graph.specs.Plain.{Answers, IsApart};

use super::MapGraph;
use crate::ModelRefused;
use gdi_kinds::{NoMemory, Reply, Value};
use graph_parts::HeldVertex;
use rma_layout::MOST_WORDS;

// A bucket that leads to so many vertices has as many words as an object may have.
const MOST_IN_BUCKET: u64 = MOST_WORDS / 2;

// The calls that make, drop and ask for vertices, and what others write at one.
impl MapGraph {
    pub(super) fn has_vertex(&self, id: u64) -> Reply
        ensures { result ≡ reply_to self.now.shape self.now.graph (call.Has id) }
    {
        match self.vertex(id) {
            Some(_) => Reply::Yes,
            None => Reply::No,
        }
    }

    pub(super) fn make_vertex(&mut self, id: u64) -> Result<Reply, ModelRefused>
        ensures shape { self.new.shape ≡ self.old.shape }
        ensures answer { IfOk result (Answers self.old (call.Vertex id) self.new) }
    {
        if self.vertices.contains_key(&id) {
            return Ok(Reply::Exists);
        }
        if self.torn {
            return Err(ModelRefused::NoMemory);
        }
        // In these ranges distinct buckets have distinct pointers.
        self.geometry.keeps_ranges();
        let bucket = self.geometry.bucket(id).raw();
        if self.bucket_counts.count(bucket) >= MOST_IN_BUCKET {
            return Ok(Reply::TooLarge);
        }
        self.torn = true;
        self.bucket_counts.raise(bucket)?;
        self.vertices.insert(id, HeldVertex::new(self.alloc))?;
        self.torn = false;
        Ok(Reply::Done)
    }

    pub(super) fn drop_vertex(&mut self, id: u64) -> Result<Reply, ModelRefused>
        ensures shape { self.new.shape ≡ self.old.shape }
        ensures answer { IfOk result (Answers self.old (call.DropVertex id) self.new) }
    {
        let Some(_vertex) = self.vertex(id) else {
            return Ok(Reply::NoVertex(id));
        };
        self.cut_edges_at(id)?;
        self.take_vertex(id)?;
        Ok(Reply::Done)
    }

    // Takes out a vertex that has no edges.
    pub(super) fn take_vertex(&mut self, id: u64) -> Result<(), NoMemory>
        requires there { IsSome (vertex_at self.old.graph id) }
        requires alone { AllByRecursion (IsApart id) self.old.graph.edges }
        ensures shape { self.new.shape ≡ self.old.shape }
        ensures graph { OnOk result (self.new.graph ≡ (record self.old.graph { vertices = without self.old.graph.vertices id })) }
    {
        if self.torn {
            return Err(NoMemory);
        }
        let bucket = self.geometry.bucket(id).raw();
        self.torn = true;
        let Some(vertex) = self.vertices.remove(&id) else {
            unreachable!()
        };
        vertex.uncount_labels(&self.geometry, id, &mut self.slot_counts)?;
        self.bucket_counts.lower(bucket)?;
        self.torn = false;
        Ok(())
    }

    /// Gives a property of a vertex this value alone.
    pub(super) fn set_value(&mut self, id: u64, ty: u32, value: Value) -> Result<(), NoMemory>
        requires there { IsSome (vertex_at self.old.graph id) }
        requires words { (vertex : Vertex) → vertex_at self.old.graph id ≡ Some vertex
            → words_of_props (with_at vertex.props ty (value ∷ [])) ≤ 1048576 }
        ensures shape { self.new.shape ≡ self.old.shape }
        ensures graph { OnOk result ((vertex : Vertex) → vertex_at self.old.graph id ≡ Some vertex
            → self.new.graph ≡ with_vertex self.old.graph id (record vertex { props = with_at vertex.props ty (value ∷ []) })) }
    {
        let alloc = self.alloc;
        let Some(vertex) = self.vertices.get_mut(&id) else {
            unreachable!()
        };
        vertex.set_value(alloc, ty, value)?;
        Ok(())
    }

    /// Puts a value behind those of a property of a vertex.
    pub(super) fn add_value(&mut self, id: u64, ty: u32, value: Value) -> Result<(), NoMemory>
        requires there { IsSome (vertex_at self.old.graph id) }
        requires words { (vertex : Vertex) → vertex_at self.old.graph id ≡ Some vertex
            → words_of_props (with_at vertex.props ty (values_at vertex.props ty ++ value ∷ [])) ≤ 1048576 }
        ensures shape { self.new.shape ≡ self.old.shape }
        ensures graph { OnOk result ((vertex : Vertex) → vertex_at self.old.graph id ≡ Some vertex
            → self.new.graph ≡ with_vertex self.old.graph id
            (record vertex { props = with_at vertex.props ty (values_at vertex.props ty ++ value ∷ []) })) }
    {
        let alloc = self.alloc;
        let Some(vertex) = self.vertices.get_mut(&id) else {
            unreachable!()
        };
        vertex.add_value(alloc, ty, value)?;
        Ok(())
    }

    /// Takes out a property of a vertex.
    pub(super) fn remove_values(&mut self, id: u64, ty: u32)
        requires { IsSome (vertex_at self.old.graph id) }
        ensures shape { self.new.shape ≡ self.old.shape }
        ensures graph { (vertex : Vertex) → vertex_at self.old.graph id ≡ Some vertex
            → self.new.graph ≡ with_vertex self.old.graph id (record vertex { props = without vertex.props ty }) }
    {
        let Some(vertex) = self.vertices.get_mut(&id) else {
            unreachable!()
        };
        vertex.remove_values(ty);
    }
}
