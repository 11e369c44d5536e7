ghost use Rattle.std.specs.Prelude.{◌≡◌, ◌≤◌, ◌*◌, ◌+◌, OnOk, IfOk, MatchResult, Ok, Err, Some};
ghost use Rattle.std.specs.Option.{option_copied, option_to_list};
ghost use Rattle.std.specs.List.{position};
ghost use Rattle.std.specs.Str.{bytes_eq};
ghost use Rattle.gdi_kinds.specs.Constraint.{kind_of, same_kind};
ghost use Rattle.graph_model.specs.Maps.{item_at};
ghost use Rattle.graph_model.specs.Graph.{vertex_at, edge_at};
ghost use Rattle.graph_model.specs.EdgeCalls.{edge_or_refusal, label_if_named};
ghost use Rattle.graph_model.specs.Lookups.{label_number, type_number, kind_at, is_marked};
ghost use Rattle.graph_model.specs.Sizes.{records_at};

use super::MapGraph;
use edge_index::EdgeKey;
use gdi_kinds::{Kind, Name, NoMemory, Reply, Value};
use graph_parts::{HeldEdge, HeldType, HeldVertex};
use std::alloc::Global;
use std::collections::BTreeMap;

// What a call looks up before it answers.
impl MapGraph {
    /// The number of a label.
    pub(super) fn label_number(&self, name: &Name) -> Option<u32>
        ensures { result ≡ label_number self.now.graph name.now }
    {
        let place = place_of_name(name, self.labels.as_slice())?;
        Some(place as u32)
    }

    /// The number of a property type.
    pub(super) fn type_number(&self, name: &Name) -> Option<u32>
        ensures { result ≡ type_number self.now.graph name.now }
    {
        let place = place_of_type(name, self.types.as_slice())?;
        Some(place as u32)
    }

    fn held_type(&self, ty: u32) -> Option<&HeldType>
        ensures { option_copied result ≡ item_at self.now.graph.types ty }
    {
        self.types.as_slice().get(ty as usize)
    }

    /// Whether a value is of the kind of a type.
    pub(super) fn is_of_kind(&self, ty: u32, value: &Value) -> bool
        ensures { result ≡ same_kind (kind_of value.now) (kind_at self.now.graph ty) }
    {
        is_of_kind(value, self.kind_of_type(ty))
    }

    /// The kind of a type. An unknown one counts as of integers.
    pub(super) fn kind_of_type(&self, ty: u32) -> Kind
        ensures { result ≡ kind_at self.now.graph ty }
    {
        match self.held_type(ty) {
            Some(held) => held.kind(),
            None => Kind::Int,
        }
    }

    /// Whether a property of a type may have more than one value.
    pub(super) fn is_marked(&self, ty: u32) -> bool
        ensures { result ≡ is_marked self.now.graph ty }
    {
        match self.held_type(ty) {
            Some(held) => held.many(),
            None => false,
        }
    }

    /// A vertex, if it is there.
    pub fn vertex(&self, id: u64) -> Option<&HeldVertex>
        ensures { option_copied result ≡ vertex_at self.now.graph id }
    {
        self.vertices.get(&id)
    }

    /// The vertices, by their identifiers.
    pub fn held_vertices(&self) -> &BTreeMap<u64, HeldVertex, Global>
        ensures { result.now.entries ≡ self.now.graph.vertices }
    {
        &self.vertices
    }

    /// The edges, by their names.
    pub fn held_edges(&self) -> &BTreeMap<EdgeKey, HeldEdge, Global>
        ensures { result.now.entries ≡ self.now.graph.edges }
    {
        &self.edges
    }

    /// How many ends of edges are at a vertex.
    pub(super) fn records(&self, id: u64) -> Result<u64, NoMemory>
        ensures { IfOk result (λ records. records ≡ records_at self.now.graph id) }
    {
        if self.torn {
            return Err(NoMemory);
        }
        Ok(self.outgoing.count(id) + self.incoming.count(id))
    }

    /// An edge by its source and ordinal, if it is there.
    pub fn edge(&self, source: u64, ordinal: u64) -> Option<&HeldEdge>
        ensures { option_copied result ≡ edge_at self.now.graph source ordinal }
    {
        self.edges.get(&EdgeKey::new(source, ordinal))
    }

    /// An edge, or the refusal of a call on it.
    pub(super) fn edge_or_refusal(&self, source: u64, ordinal: u64) -> Result<&HeldEdge, Reply>
        ensures steps { MatchResult result (λ edge. Ok edge.now ≡ edge_or_refusal self.now.graph source ordinal)
            (λ refusal. Err refusal ≡ edge_or_refusal self.now.graph source ordinal) }
        ensures there { IfOk result (λ edge. edge_at self.now.graph source ordinal ≡ Some edge.now) }
    {
        if self.vertex(source).is_none() {
            return Err(Reply::NoVertex(source));
        }
        match self.edge(source, ordinal) {
            Some(edge) => Ok(edge),
            None => Err(Reply::NoEdge),
        }
    }

    /// The number of a label that may be named, or the refusal of a call with it.
    pub(super) fn label_if_named(&self, name: &Option<Name>) -> Result<Option<u32>, Reply>
        ensures { MatchResult result (λ label. Ok (option_to_list label) ≡ label_if_named self.now.graph name.now)
            (λ refusal. Err refusal ≡ label_if_named self.now.graph name.now) }
    {
        let Some(name) = name else {
            return Ok(None);
        };
        match self.label_number(name) {
            Some(label) => Ok(Some(label)),
            None => Err(Reply::NoLabel),
        }
    }
}

fn is_of_kind(value: &Value, kind: Kind) -> bool
    ensures { result ≡ same_kind (kind_of value.now) kind }
{
    match value {
        Value::Int(_) => kind == Kind::Int,
        Value::Bool(_) => kind == Kind::Bool,
        Value::Text(_) => kind == Kind::Text,
    }
}

fn place_of_name(name: &Name, names: &[Name]) -> Option<usize>
    ensures { result ≡ position (bytes_eq name.now) names.now }
{
    names.iter().position(|other| name == other)
}

fn place_of_type(name: &Name, types: &[HeldType]) -> Option<usize>
    ensures { result ≡ position (λ ty. bytes_eq name.now ty.name) types.now }
{
    types.iter().position(|ty| name == ty.name())
}
