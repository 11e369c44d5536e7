ghost use Rattle.std.specs.Prelude.{◌≡◌};
ghost use Rattle.holder_codec.specs.Bucket.{EntryFits, entry_words, is_entry_before};
ghost use Rattle.holder_codec.specs.Reading.{entry_at};

use crate::item::{Item, Ordered};
use crate::unread::Unread;
use crate::words::{read_number, read_pointer};
use gdi_kinds::{ListOf, NoMemory};
use object_words::Words;
use rma_layout::DPtr;
use std::alloc::Global;

/// A vertex by its identifier, and the object that holds it.
#[derive(Clone, Copy, Debug, PartialEq, Eq)]
pub struct BucketEntry {
    pub id: u64,
    pub at: DPtr,
}

/// The entries of a bucket.
pub type BucketList = ListOf<BucketEntry>;

impl Item for BucketEntry {
    ghost spelling = { entry_words };

    ghost Fits = { EntryFits };

    ghost reading = { entry_at };

    fn write_to(&self, out: &mut Words) -> Result<(), NoMemory> {
        out.push(self.id)?;
        out.push(self.at.raw())
    }

    #[tactic(auto, unfolding(crate::specs::Reading::entry_at))]
    fn read_from(_alloc: Global, words: &mut &[u64]) -> Result<BucketEntry, Unread> {
        let id = read_number(words)?;
        let at = read_pointer(words)?;
        Ok(BucketEntry { id, at })
    }
}

impl Ordered for BucketEntry {
    ghost is_before = { is_entry_before };

    fn is_before(&self, other: &BucketEntry) -> bool {
        self.id < other.id
    }
}
