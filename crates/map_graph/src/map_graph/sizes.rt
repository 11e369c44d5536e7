ghost use Rattle.std.specs.Prelude.{◌≡◌, IfOk};
ghost use Rattle.std.specs.Option.{option_map_or};
ghost use Rattle.rma_layout.specs.Placement.{bucket_of, slot_of};
ghost use Rattle.graph_model.specs.Graph.{vertex_at, edge_at, is_heavy_at};
ghost use Rattle.graph_model.specs.Sizes.{words_of_vertex, words_of_edge, words_of_bucket, words_of_slot, words_of_names};

use super::MapGraph;
use crate::ModelRefused;
use rma_layout::MOST_WORDS;

// How many words objects have. Each answers in time of a logarithm, and refuses a graph in which a change has begun and not
// ended, or an object that is longer than any may be.
impl MapGraph {
    /// The words of a vertex's object, 0 where it isn't there.
    pub fn vertex_words(&self, id: u64) -> Result<u64, ModelRefused>
        ensures { IfOk result (λ words. words ≡ option_map_or (words_of_vertex self.now.graph id) (vertex_at self.now.graph id) 0) }
    {
        let Some(vertex) = self.vertex(id) else {
            return Ok(0);
        };
        let records = self.records(id)?;
        if records > MOST_WORDS {
            return Err(ModelRefused::NoMemory);
        }
        Ok(5 + vertex.label_count() + vertex.props().words() + 5 * records)
    }

    /// The words that an edge's own object has or would have, 0 where the edge isn't there.
    pub fn edge_words(&self, source: u64, ordinal: u64) -> u64
        ensures { result ≡ option_map_or words_of_edge (edge_at self.now.graph source ordinal) 0 }
    {
        match self.edge(source, ordinal) {
            Some(edge) => 5 + edge.label_count() + edge.props().words(),
            None => 0,
        }
    }

    /// Whether an edge is there and has an object of its own.
    pub fn is_heavy(&self, source: u64, ordinal: u64) -> bool
        ensures { result ≡ is_heavy_at self.now.graph source ordinal }
    {
        match self.edge(source, ordinal) {
            Some(edge) => edge.label_count() > 1 || edge.props().count() > 0,
            None => false,
        }
    }

    /// The words of the bucket of an identifier.
    pub fn bucket_words(&self, id: u64) -> Result<u64, ModelRefused>
        ensures { IfOk result (λ words. words ≡ words_of_bucket self.now.shape self.now.graph (bucket_of self.now.shape id)) }
    {
        let words = self.words_of_bucket(self.geometry.bucket(id))?;
        Ok(words)
    }

    /// The words of the object of the index that keeps a label of an identifier.
    pub fn slot_words(&self, label: u32, id: u64) -> Result<u64, ModelRefused>
        ensures { IfOk result (λ words. words ≡ words_of_slot self.now.shape self.now.graph (slot_of self.now.shape label id)) }
    {
        let words = self.words_of_slot(self.geometry.slot(label, id))?;
        Ok(words)
    }

    /// The words of the object of the names.
    pub fn names_words(&self) -> u64
        ensures { result ≡ words_of_names self.now.graph }
    {
        if self.labels.len() == 0 && self.types.len() == 0 {
            return 0;
        }
        self.name_words + 2
    }
}
