ghost use Rattle.std.specs.Prelude.{◌≡◌, ◌<◌, ◌^◌, IfOk};
ghost use Rattle.graph_model.specs.Capacity.{is_object, words_of, words_of_reserved};
ghost use Rattle.graph_model.specs.Sizes.{words_of_bucket, words_of_slot};
ghost use Rattle.map_graph.specs.Named.{object_of, rank_in, IsName};

use super::MapGraph;
use crate::ModelRefused;
use crate::object_name::ObjectName;
use rma_layout::{DPtr, MOST_WORDS};

// What there is of an object by its name.
impl MapGraph {
    /// Whether an object is there.
    pub fn is_object(&self, object: ObjectName) -> bool
        ensures { result ≡ is_object self.now.graph (object_of object) }
    {
        match object {
            ObjectName::Reserved(_, _) => true,
            ObjectName::Vertex(id) => self.vertex(id).is_some(),
            ObjectName::HeavyEdge(source, ordinal) => self.is_heavy(source, ordinal),
        }
    }

    /// The words of an object, 0 where it isn't there. It refuses a graph in which a change has begun and not ended, and an
    /// object that is longer than any may be.
    pub fn object_words(&self, object: ObjectName) -> Result<u64, ModelRefused>
        requires { IsName object }
        ensures { IfOk result (λ words. words ≡ words_of self.now.shape self.now.graph (rank_in self.now.shape object) (object_of object)) }
    {
        match object {
            ObjectName::Reserved(rank, block) => {
                let words = self.reserved_words(rank, block)?;
                Ok(words)
            }
            ObjectName::Vertex(id) => {
                let words = self.vertex_words(id)?;
                Ok(words)
            }
            ObjectName::HeavyEdge(source, ordinal) => Ok(self.edge_words(source, ordinal)),
        }
    }

    fn reserved_words(&self, rank: u16, block: u64) -> Result<u64, ModelRefused>
        requires { block < 2 ^ 48 }
        ensures { IfOk result (λ words. words ≡ words_of_reserved self.now.shape self.now.graph rank block) }
    {
        if block == 0 {
            return Ok(if rank == 0 { self.names_words() } else { 0 });
        }
        let at = DPtr::new(rank, block);
        if block > self.geometry.buckets() {
            let words = self.words_of_slot(at)?;
            return Ok(words);
        }
        let words = self.words_of_bucket(at)?;
        Ok(words)
    }

    pub(super) fn words_of_bucket(&self, at: DPtr) -> Result<u64, ModelRefused>
        ensures { IfOk result (λ words. words ≡ words_of_bucket self.now.shape self.now.graph at) }
    {
        if self.torn {
            return Err(ModelRefused::NoMemory);
        }
        // In these ranges distinct buckets have distinct pointers.
        self.geometry.keeps_ranges();
        // These tell that it is the pointer of one place.
        let _rank = at.rank();
        let _block = at.block();
        let led_to = self.bucket_counts.count(at.raw());
        if led_to > MOST_WORDS {
            return Err(ModelRefused::NoMemory);
        }
        Ok(2 * led_to)
    }

    pub(super) fn words_of_slot(&self, at: DPtr) -> Result<u64, ModelRefused>
        ensures { IfOk result (λ words. words ≡ words_of_slot self.now.shape self.now.graph at) }
    {
        if self.torn {
            return Err(ModelRefused::NoMemory);
        }
        // In these ranges distinct objects have distinct pointers.
        self.geometry.keeps_ranges();
        // These tell that it is the pointer of one place.
        let _rank = at.rank();
        let _block = at.block();
        let kept = self.slot_counts.count(at.raw());
        if kept > MOST_WORDS {
            return Err(ModelRefused::NoMemory);
        }
        Ok(2 * kept)
    }
}
