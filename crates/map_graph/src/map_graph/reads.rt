ghost use Rattle.std.specs.Prelude.{◌≡◌, ◌<◌, length, IfOk};
ghost use Rattle.std.specs.List.{AllByRecursion};
ghost use Rattle.gdi_kinds.specs.declared.call.Call.TheVariants as call;
ghost use Rattle.graph_model.specs.Lookups.{names_of, lines_of_props};
ghost use Rattle.graph_model.specs.WellFormed.{IsWellFormed};
ghost use Rattle.map_graph.specs.Plain.{Answers};

use super::MapGraph;
use crate::ModelRefused;
use crate::shown::{lines_of_props, names_of};
use gdi_kinds::{NameList, NoMemory, PropList, Reply};
use graph_parts::HeldProps;
use std::alloc::Global;
use std::collections::BTreeSet;

// The calls that show all labels or all properties of a vertex or an edge.
impl MapGraph {
    pub(super) fn tags(&self, id: u64) -> Result<Reply, ModelRefused>
        requires { IsWellFormed self.now.graph }
        ensures { IfOk result (Answers self.now (call.Tags id) self.now) }
    {
        let Some(vertex) = self.vertex(id) else {
            return Ok(Reply::NoVertex(id));
        };
        let names = self.names_of(vertex.labels())?;
        Ok(Reply::Labels(names))
    }

    pub(super) fn props(&self, id: u64) -> Result<Reply, ModelRefused>
        requires { IsWellFormed self.now.graph }
        ensures { IfOk result (Answers self.now (call.Props id) self.now) }
    {
        let Some(vertex) = self.vertex(id) else {
            return Ok(Reply::NoVertex(id));
        };
        let lines = self.lines_of_props(vertex.props())?;
        Ok(Reply::Props(lines))
    }

    pub(super) fn edge_tags(&self, source: u64, ordinal: u64) -> Result<Reply, ModelRefused>
        requires { IsWellFormed self.now.graph }
        ensures { IfOk result (Answers self.now (call.ETags source ordinal) self.now) }
    {
        let edge = match self.edge_or_refusal(source, ordinal) {
            Ok(edge) => edge,
            Err(refusal) => return Ok(refusal),
        };
        let names = self.names_of(edge.labels())?;
        Ok(Reply::Labels(names))
    }

    pub(super) fn edge_props(&self, source: u64, ordinal: u64) -> Result<Reply, ModelRefused>
        requires { IsWellFormed self.now.graph }
        ensures { IfOk result (Answers self.now (call.EProps source ordinal) self.now) }
    {
        let edge = match self.edge_or_refusal(source, ordinal) {
            Ok(edge) => edge,
            Err(refusal) => return Ok(refusal),
        };
        let lines = self.lines_of_props(edge.props())?;
        Ok(Reply::Props(lines))
    }

    /// The names of labels.
    pub(super) fn names_of(&self, labels: &BTreeSet<u32, Global>) -> Result<NameList, NoMemory>
        requires { AllByRecursion (λ n. n < length self.now.graph.labels) labels.now.keys }
        ensures { IfOk result (λ names. names ≡ names_of self.now.graph labels.now.keys) }
    {
        let names = names_of(self.alloc(), &self.labels, labels)?;
        Ok(names)
    }

    /// A line for each value of properties.
    pub(super) fn lines_of_props(&self, props: &HeldProps) -> Result<PropList, NoMemory>
        requires { AllByRecursion (λ entry. entry.0 < length self.now.graph.types) props.now }
        ensures { IfOk result (λ lines. lines ≡ lines_of_props self.now.graph props.now) }
    {
        let lines = lines_of_props(self.alloc(), &self.types, props)?;
        Ok(lines)
    }
}
