ghost use Rattle.std.specs.Prelude.{◌≡◌};

use gdi_kinds::NoMemory;
use lock_words::Want;
use rma_layout::DPtr;

/// Why a call of a store over a window is refused.
#[derive(Clone, Copy, Debug, PartialEq, Eq)]
pub enum TxnRefused {
    /// The lock word of the object was this one, which stands in the way of what was wanted.
    Busy { object: DPtr, want: Want, word: u64 },
    /// The gate word was this one: somebody looks at the whole window.
    GateBusy { word: u64 },
    /// The free list of the home rank behind this head is empty.
    Empty { rank: u16, head: u64 },
    /// 64 exchanges on the head of the home rank failed. In one of them `loaded` was loaded and `seen` found.
    PoolBusy { rank: u16, loaded: u64, seen: u64 },
    /// The head of the home rank has the last tag.
    Worn { rank: u16, head: u64 },
    /// No memory was found.
    NoMemory,
}

impl From<NoMemory> for TxnRefused {
    ghost use Rattle.object_txn.specs.declared.refused.TxnRefused.TheVariants.{NoMemory};

    ghost from_gives = { λ _ why. why ≡ NoMemory };

    fn from(_none: NoMemory) -> TxnRefused {
        TxnRefused::NoMemory
    }
}
