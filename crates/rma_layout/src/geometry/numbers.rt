ghost use Rattle.std.specs.Prelude.{◌≡◌, ◌<◌, ◌≤◌};
ghost use Rattle.rma_layout.specs.Shape.{window_words};
ghost use Rattle.rma_layout.specs.Placement.{IsBlock};
ghost use Rattle.rma_layout.specs.Words.{IsWord, first_head, first_word, number_of};

use crate::{DPtr, Geometry, Word};

impl Geometry {
    /// How many words the window has, at most 67,108,864.
    pub fn window_words(&self) -> u64
        ensures value { result ≡ window_words self.now }
        ensures within { result ≤ 67108864 }
    {
        self.first_head() + self.ranks + 2
    }

    /// The number of a word of this window, below the total.
    pub fn number(&self, word: Word) -> u64
        requires { IsWord self.now word }
        ensures value { result ≡ number_of self.now word }
        ensures within { result < window_words self.now }
    {
        match word {
            Word::Lock(block) => self.first_word(block),
            Word::Length(block) => self.first_word(block) + 1,
            Word::FreeList(block) => self.first_word(block) + 2,
            Word::Stamp(block) => self.first_word(block) + 3,
            Word::Data(block, i) => self.first_word(block) + 4 + i,
            Word::Head(rank) => self.first_head() + u64::from(rank),
            Word::Gate => self.first_head() + self.ranks,
            Word::Commit => self.first_head() + self.ranks + 1,
        }
    }

    /// The number of the first word of a block.
    fn first_word(&self, block: DPtr) -> u64
        requires { IsBlock self.now block }
        ensures { result ≡ first_word self.now block }
    {
        (u64::from(block.rank()) * self.blocks + block.block()) * (self.words + 4)
    }

    /// The number of the first head.
    fn first_head(&self) -> u64
        ensures { result ≡ first_head self.now }
    {
        self.ranks * self.blocks * (self.words + 4)
    }
}
