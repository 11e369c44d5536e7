ghost use Rattle.std.specs.Prelude.{◌≡◌, ◌≤◌, Some, None, MatchResult};
ghost use Rattle.rma_layout.specs.Shape.{Shape, standard_shape, reserved_blocks};
ghost use Rattle.rma_layout.specs.Ranges.{is_between, refusal_of, IsInRange};

mod numbers;
mod placement;

use std::marker::Model;

/// How large a window is. Its ranges are checked when it is made.
#[derive(Clone, Copy, Debug)]
pub struct Geometry {
    ranks: u64,
    blocks: u64,
    words: u64,
    buckets: u64,
    slots: u64,
}

/// Why a geometry is refused.
#[derive(Clone, Copy, Debug, PartialEq, Eq)]
pub enum BadGeometry {
    /// There are to be 1 to 64 ranks.
    TooManyRanks = 1,
    /// A rank has blocks for block 0, the buckets and the slots at least, and at most 1,048,575.
    BadBlocks = 2,
    /// A block has 8 to 64 words.
    BadWords = 3,
    /// A rank has 1 to 4,096 buckets.
    BadBuckets = 4,
    /// A rank has 1 to 64 slots.
    BadSlots = 5,
    /// The window has at most 67,108,864 words.
    TooManyWords = 6,
}

impl Model for Geometry {
    ghost use Rattle.rma_layout.specs.Shape.{Shape};

    ghost Value = { Shape };

    ghost use Rattle.rma_layout.specs.Ranges.{IsInRange};

    ghost view = { λ g. record { ranks = g.ranks; blocks = g.blocks; words = g.words; buckets = g.buckets; slots = g.slots } };

    ghost invariant = { λ g. IsInRange (record { ranks = g.ranks; blocks = g.blocks; words = g.words; buckets = g.buckets; slots = g.slots }) };

    ghost inverse = { λ s. record { ranks = s.ranks; blocks = s.blocks; words = s.words; buckets = s.buckets; slots = s.slots } };
}

impl Geometry {
    /// The geometry of these numbers: ranks, blocks of each rank, words of each block, buckets and slots of each rank.
    ///
    /// The ranges are tried in this order: ranks, words, buckets, slots, blocks, words of the window. The first that
    /// isn't kept is the refusal.
    pub fn new(
        ranks: u64,
        blocks: u64,
        words: u64,
        buckets: u64,
        slots: u64,
    ) -> Result<Geometry, BadGeometry>
        ensures { let shape : Shape = record { ranks = ranks; blocks = blocks; words = words; buckets = buckets; slots = slots } in
            MatchResult result (λ made. (made ≡ shape) × (refusal_of shape ≡ None)) (λ bad. refusal_of shape ≡ Some bad) }
    {
        if !is_between(1, 64, ranks) {
            return Err(BadGeometry::TooManyRanks);
        }
        if !is_between(8, 64, words) {
            return Err(BadGeometry::BadWords);
        }
        if !is_between(1, 4096, buckets) {
            return Err(BadGeometry::BadBuckets);
        }
        if !is_between(1, 64, slots) {
            return Err(BadGeometry::BadSlots);
        }
        if !is_between(1 + buckets + slots, 1_048_575, blocks) {
            return Err(BadGeometry::BadBlocks);
        }
        if ranks * blocks * (words + 4) + ranks + 2 > 67_108_864 {
            return Err(BadGeometry::TooManyWords);
        }
        Ok(Geometry {
            ranks,
            blocks,
            words,
            buckets,
            slots,
        })
    }

    /// The geometry of a program that is told none: 4 ranks of 16,384 blocks of 16 words, with 64 buckets and 16 slots
    /// a rank.
    pub fn standard() -> Geometry
        ensures { result ≡ standard_shape }
    {
        Geometry {
            ranks: 4,
            blocks: 16_384,
            words: 16,
            buckets: 64,
            slots: 16,
        }
    }

    /// Every geometry is in all ranges at once.
    pub fn keeps_ranges(&self)
        ensures { IsInRange self.now }
    {
        let _ = &self.ranks;
    }

    /// The ranks, 1 to 64.
    pub fn ranks(&self) -> u64
        ensures value { result ≡ self.now.ranks }
        ensures within { (1 ≤ result) × (result ≤ 64) }
    {
        self.ranks
    }

    /// The blocks of each rank: the reserved ones at least, and at most 1,048,575.
    pub fn blocks(&self) -> u64
        ensures value { result ≡ self.now.blocks }
        ensures within { (reserved_blocks self.now ≤ result) × (result ≤ 1048575) }
    {
        self.blocks
    }

    /// The words of each block, 8 to 64.
    pub fn words(&self) -> u64
        ensures value { result ≡ self.now.words }
        ensures within { (8 ≤ result) × (result ≤ 64) }
    {
        self.words
    }

    /// The buckets of each rank, 1 to 4,096.
    pub fn buckets(&self) -> u64
        ensures value { result ≡ self.now.buckets }
        ensures within { (1 ≤ result) × (result ≤ 4096) }
    {
        self.buckets
    }

    /// The slots of each rank, 1 to 64.
    pub fn slots(&self) -> u64
        ensures value { result ≡ self.now.slots }
        ensures within { (1 ≤ result) × (result ≤ 64) }
    {
        self.slots
    }
}

/// Whether a number is from `low` to `high`.
fn is_between(low: u64, high: u64, n: u64) -> bool
    ensures { result ≡ is_between low high n }
{
    (low..=high).contains(&n)
}
