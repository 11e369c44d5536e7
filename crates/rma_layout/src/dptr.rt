ghost use Rattle.std.specs.Prelude.{◌≡◌, ◌^◌, ◌<◌};
ghost use Rattle.rma_layout.specs.Placement.{Place, raw_of, FitsOneWord};

use std::marker::Model;

const BLOCK_BITS: u32 = 48;

/// A pointer to a block of the window, in one word: the rank in the 16 high bits, the number of the block on its
/// rank in the 48 low bits. It names an object by the object's first block.
///
/// The word 0 is the metadata object. As a link from block to block it is the end.
#[derive(Clone, Copy, Debug, PartialEq, Eq)]
pub struct DPtr {
    word: u64,
}

impl Model for DPtr {
    ghost use Rattle.std.specs.Prelude.{◌^◌, ◌/◌, ◌%◌};
    ghost use Rattle.rma_layout.specs.Placement.{Place, raw_of};

    ghost Value = { Place };

    ghost view = { λ p. record { rank = p.word / 2 ^ 48; block = p.word % 2 ^ 48 } };

    ghost inverse = { λ place. record { word = raw_of place } };
}

impl DPtr {
    /// The pointer to a block of a rank. The block's number has 48 bits.
    pub fn new(rank: u16, block: u64) -> DPtr
        requires { block < 2 ^ 48 }
        ensures { result ≡ (record { rank = rank; block = block }) }
    {
        DPtr {
            word: u64::from(rank) << BLOCK_BITS | block,
        }
    }

    /// The word. No other pointer has it.
    pub fn raw(self) -> u64
        ensures value { result ≡ raw_of self }
        ensures one_to_one { (other : Place) → FitsOneWord other →
            raw_of other ≡ result → other ≡ self }
    {
        self.word
    }

    pub fn rank(self) -> u16
        ensures { result ≡ self.rank }
    {
        (self.word >> BLOCK_BITS) as u16
    }

    /// The number of the block on its rank, of 48 bits.
    pub fn block(self) -> u64
        ensures value { result ≡ self.block }
        ensures within { result < 2 ^ 48 }
    {
        self.word & ((1 << BLOCK_BITS) - 1)
    }
}
