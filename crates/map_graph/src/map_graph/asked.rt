ghost use Rattle.std.specs.Prelude.{◌≡◌, is_some};
ghost use Rattle.std.specs.Option.{option_map, option_map_or};
ghost use Rattle.graph_model.specs.Graph.{is_vertex, vertex_at};
ghost use Rattle.graph_model.specs.Lookups.{label_number, type_number, kind_at, is_marked};

use super::MapGraph;
use gdi_kinds::{Kind, Name};
use std::alloc::Global;

// What a caller asks of the graph beside its calls. None of it takes memory.
impl MapGraph {
    /// The allocator that `new` was given.
    pub fn alloc(&self) -> Global {
        self.alloc
    }

    /// Whether there is a label of this name.
    pub fn has_label(&self, name: &Name) -> bool
        ensures { result ≡ is_some (label_number self.now.graph name.now) }
    {
        self.label_number(name).is_some()
    }

    /// The kind of the property type of this name, and whether it is marked, where there is one.
    pub fn prop_type(&self, name: &Name) -> Option<(Kind, bool)>
        ensures { result ≡ option_map (λ ty. (kind_at self.now.graph ty, is_marked self.now.graph ty)) (type_number self.now.graph name.now) }
    {
        let ty = self.type_number(name)?;
        Some((self.kind_of_type(ty), self.is_marked(ty)))
    }

    /// Whether there is a vertex of this identifier.
    pub fn is_vertex(&self, id: u64) -> bool
        ensures { result ≡ is_vertex self.now.graph id }
    {
        self.vertex(id).is_some()
    }

    /// The ordinal of the next edge from a vertex, and 0 where there is no vertex.
    pub fn next_ordinal(&self, id: u64) -> u64
        ensures { result ≡ option_map_or (λ vertex. vertex.next) (vertex_at self.now.graph id) 0 }
    {
        match self.vertex(id) {
            Some(vertex) => vertex.next(),
            None => 0,
        }
    }
}
