ghost use Rattle.std.specs.Prelude.{◌≡◌};
ghost use Rattle.holder_codec.specs.Index.{IndexEntryFits, index_entry_words, is_pair_before};
ghost use Rattle.holder_codec.specs.Reading.{pair_at};

use crate::item::{Item, Ordered};
use crate::unread::Unread;
use crate::words::{narrow, read_number};
use gdi_kinds::{ListOf, NoMemory};
use object_words::Words;
use std::alloc::Global;

/// A vertex by its identifier, and the number of a label that it has.
#[derive(Clone, Copy, Debug, PartialEq, Eq)]
pub struct IndexEntry {
    pub label: u32,
    pub id: u64,
}

/// The entries of an object of the index.
pub type IndexList = ListOf<IndexEntry>;

impl Item for IndexEntry {
    ghost spelling = { index_entry_words };

    ghost Fits = { IndexEntryFits };

    ghost reading = { pair_at };

    fn write_to(&self, out: &mut Words) -> Result<(), NoMemory> {
        out.push(u64::from(self.label))?;
        out.push(self.id)
    }

    #[tactic(auto, unfolding(crate::specs::Reading::pair_at, crate::specs::Reading::label_at))]
    fn read_from(_alloc: Global, words: &mut &[u64]) -> Result<IndexEntry, Unread> {
        let label = narrow(read_number(words)?)?;
        let id = read_number(words)?;
        Ok(IndexEntry { label, id })
    }
}

impl Ordered for IndexEntry {
    ghost is_before = { is_pair_before };

    fn is_before(&self, other: &IndexEntry) -> bool {
        self.label < other.label || self.label == other.label && self.id < other.id
    }
}
