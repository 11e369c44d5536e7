ghost use Rattle.std.specs.Prelude.{◌≡◌, ◌++◌, ℕ, Bool, List, Option, OnOk};
ghost use Rattle.holder_codec.specs.Reading.{Gives};

use crate::unread::Unread;
use gdi_kinds::NoMemory;
use object_words::Words;
use std::alloc::Global;

/// What stands in a list of a holder.
pub(crate) trait Item: Sized {
    /// The words of an item.
    ghost spelling: { Self → List ℕ };

    /// What has a spelling.
    ghost Fits: { Self → Type 0 };

    /// The item that words begin with, and the words after it.
    ghost reading: { List ℕ → Option (Self × List ℕ) };

    /// Puts the words of the item at the end.
    fn write_to(&self, out: &mut Words) -> Result<(), NoMemory>
        requires { Fits self.now }
        ensures { OnOk result (out.new ≡ out.old ++ spelling self.now) };

    /// The item that the words begin with. The words after it are left.
    fn read_from(alloc: Global, words: &mut &[u64]) -> Result<Self, Unread>
        ensures { Gives (λ item. (item, words.new.now)) result (reading words.old.now) };
}

/// What stands in a rising list of a holder.
pub(crate) trait Ordered: Item {
    ghost is_before: { Self → Self → Bool };

    /// Whether the item stands before the other one.
    fn is_before(&self, other: &Self) -> bool
        ensures { result ≡ is_before self.now other.now };
}
