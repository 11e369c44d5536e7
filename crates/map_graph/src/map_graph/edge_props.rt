ghost use Rattle.std.specs.Prelude.{◌≡◌, IfOk};
ghost use Rattle.gdi_kinds.specs.declared.call.Call.TheVariants as call;
ghost use Rattle.map_graph.specs.Plain.{Answers};

use super::MapGraph;
use super::edge_tags::is_edge_too_large;
use super::props::reply_of_values;
use crate::ModelRefused;
use edge_index::EdgeKey;
use gdi_kinds::{Duplicate, Name, Reply, Value};

// The calls on a property of an edge.
impl MapGraph {
    pub(super) fn set_edge_prop(
        &mut self,
        source: u64,
        ordinal: u64,
        prop: &Name,
        value: &Value,
    ) -> Result<Reply, ModelRefused>
        ensures shape { self.new.shape ≡ self.old.shape }
        ensures answer { IfOk result (Answers self.old (call.ESet source ordinal prop.now value.now) self.new) }
    {
        let Some(ty) = self.type_number(prop) else {
            return Ok(Reply::NoType);
        };
        let edge = match self.edge_or_refusal(source, ordinal) {
            Ok(edge) => edge,
            Err(refusal) => return Ok(refusal),
        };
        if !self.is_of_kind(ty, value) {
            return Ok(Reply::WrongKind);
        }
        let words = edge.props().words_with(ty, value);
        // An edge with a property has an object of its own.
        if is_edge_too_large(edge.label_count(), 1, words) {
            return Ok(Reply::TooLarge);
        }
        let copy = value.copy(self.alloc())?;
        self.set_edge_value(EdgeKey::new(source, ordinal), ty, copy)?;
        Ok(Reply::Done)
    }

    pub(super) fn add_edge_prop(
        &mut self,
        source: u64,
        ordinal: u64,
        prop: &Name,
        value: &Value,
    ) -> Result<Reply, ModelRefused>
        ensures shape { self.new.shape ≡ self.old.shape }
        ensures answer { IfOk result (Answers self.old (call.EAdd source ordinal prop.now value.now) self.new) }
    {
        let Some(ty) = self.type_number(prop) else {
            return Ok(Reply::NoType);
        };
        let edge = match self.edge_or_refusal(source, ordinal) {
            Ok(edge) => edge,
            Err(refusal) => return Ok(refusal),
        };
        if !self.is_of_kind(ty, value) {
            return Ok(Reply::WrongKind);
        }
        if !self.is_marked(ty) {
            return Ok(Reply::NotMany);
        }
        let words = edge.props().words_adding(ty, value);
        if is_edge_too_large(edge.label_count(), 1, words) {
            return Ok(Reply::TooLarge);
        }
        let copy = value.copy(self.alloc())?;
        self.add_edge_value(EdgeKey::new(source, ordinal), ty, copy)?;
        Ok(Reply::Done)
    }

    pub(super) fn get_edge_prop(
        &self,
        source: u64,
        ordinal: u64,
        prop: &Name,
    ) -> Result<Reply, ModelRefused>
        ensures { IfOk result (Answers self.now (call.EGet source ordinal prop.now) self.now) }
    {
        let Some(ty) = self.type_number(prop) else {
            return Ok(Reply::NoType);
        };
        let edge = match self.edge_or_refusal(source, ordinal) {
            Ok(edge) => edge,
            Err(refusal) => return Ok(refusal),
        };
        let Some(values) = edge.props().get(ty) else {
            return Ok(Reply::NoProp);
        };
        let reply = reply_of_values(self.alloc(), self.is_marked(ty), values)?;
        Ok(reply)
    }

    pub(super) fn unset_edge_prop(
        &mut self,
        source: u64,
        ordinal: u64,
        prop: &Name,
    ) -> Result<Reply, ModelRefused>
        ensures shape { self.new.shape ≡ self.old.shape }
        ensures answer { IfOk result (Answers self.old (call.EUnset source ordinal prop.now) self.new) }
    {
        let Some(ty) = self.type_number(prop) else {
            return Ok(Reply::NoType);
        };
        let edge = match self.edge_or_refusal(source, ordinal) {
            Ok(edge) => edge,
            Err(refusal) => return Ok(refusal),
        };
        if !edge.props().has(ty) {
            return Ok(Reply::NoProp);
        }
        self.remove_edge_values(EdgeKey::new(source, ordinal), ty);
        Ok(Reply::Done)
    }
}
