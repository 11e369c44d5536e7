ghost use Rattle.std.specs.Prelude.{◌≡◌, ◌+◌, ◌≤◌, ◌^◌, ◌&&◌, ◌||◌, nat_lt, IfOk};
ghost use Rattle.gdi_kinds.specs.declared.call.Call.TheVariants as call;
ghost use Rattle.graph_model.specs.Sizes.{is_too_large};
ghost use Rattle.map_graph.specs.Plain.{Answers};

use super::MapGraph;
use crate::ModelRefused;
use edge_index::EdgeKey;
use gdi_kinds::{Name, Reply};
use rma_layout::MOST_WORDS;

// The calls on the labels of an edge.
impl MapGraph {
    pub(super) fn tag_edge(
        &mut self,
        source: u64,
        ordinal: u64,
        name: &Name,
    ) -> Result<Reply, ModelRefused>
        ensures shape { self.new.shape ≡ self.old.shape }
        ensures answer { IfOk result (Answers self.old (call.ETag source ordinal name.now) self.new) }
    {
        let Some(label) = self.label_number(name) else {
            return Ok(Reply::NoLabel);
        };
        let edge = match self.edge_or_refusal(source, ordinal) {
            Ok(edge) => edge,
            Err(refusal) => return Ok(refusal),
        };
        if edge.has_label(label) {
            return Ok(Reply::HasLabel);
        }
        let labels = edge.label_count_with(label);
        if is_edge_too_large(labels, edge.props().count(), edge.props().words()) {
            return Ok(Reply::TooLarge);
        }
        self.add_edge_label(EdgeKey::new(source, ordinal), label)?;
        Ok(Reply::Done)
    }

    pub(super) fn untag_edge(
        &mut self,
        source: u64,
        ordinal: u64,
        name: &Name,
    ) -> Result<Reply, ModelRefused>
        ensures shape { self.new.shape ≡ self.old.shape }
        ensures answer { IfOk result (Answers self.old (call.EUntag source ordinal name.now) self.new) }
    {
        let Some(label) = self.label_number(name) else {
            return Ok(Reply::NoLabel);
        };
        let edge = match self.edge_or_refusal(source, ordinal) {
            Ok(edge) => edge,
            Err(refusal) => return Ok(refusal),
        };
        if !edge.has_label(label) {
            return Ok(Reply::LacksLabel);
        }
        self.remove_edge_label(EdgeKey::new(source, ordinal), label);
        Ok(Reply::Done)
    }
}

// Whether an edge with so many labels, properties, and words of these has an object of its own, which would be longer than
// an object may be.
pub(super) fn is_edge_too_large(labels: u64, props: u64, words: u64) -> bool
    requires labels { labels ≤ 2 ^ 63 }
    requires words { words ≤ 1048676 }
    ensures { result ≡ ((nat_lt 1 labels || nat_lt 0 props) && is_too_large (5 + labels + words)) }
{
    (1 < labels || 0 < props) && 5 + labels + words > MOST_WORDS
}
