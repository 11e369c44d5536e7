ghost use Rattle.std.specs.Prelude.{◌≡◌, nat_lt};
ghost use Rattle.holder_codec.specs.Vertex.{LabelFits, label_words};
ghost use Rattle.holder_codec.specs.Reading.{label_at};

use crate::item::{Item, Ordered};
use crate::unread::Unread;
use crate::words::{narrow, read_number};
use gdi_kinds::NoMemory;
use object_words::Words;
use std::alloc::Global;

/// The number of a label.
impl Item for u32 {
    ghost spelling = { label_words };

    ghost Fits = { LabelFits };

    ghost reading = { label_at };

    fn write_to(&self, out: &mut Words) -> Result<(), NoMemory> {
        out.push(u64::from(*self))
    }

    #[tactic(auto, unfolding(crate::specs::Reading::label_at))]
    fn read_from(_alloc: Global, words: &mut &[u64]) -> Result<u32, Unread> {
        narrow(read_number(words)?)
    }
}

impl Ordered for u32 {
    ghost is_before = { nat_lt };

    fn is_before(&self, other: &u32) -> bool {
        *self < *other
    }
}
