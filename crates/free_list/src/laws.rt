ghost use Rattle.std.specs.Prelude.{◌≡◌, ◌≢◌, ℕ, ◌≤◌, ◌<◌, ◌^◌, ◌+◌, List, [], ◌∷◌, length};
ghost use Rattle.std.specs.List.{AllByRecursion};
ghost use Rattle.rma_layout.specs.Placement.{Place};
ghost use Rattle.free_list.specs.Heads.{first_of, next_head, tag_of};
ghost use Rattle.free_list.specs.Lists.{IsFreeList, behind, number_to, walked_list};
ghost use Rattle.free_list.specs.Exchanges.{Exchange, Headed, after_exchanges};

/// The free list of a rank is what a walk from its head finds.
pub fn list_is_walked()
    ensures { (heads : ℕ → ℕ) (nexts : Place → ℕ) (rank most : ℕ) (list : List Place) →
        IsFreeList heads nexts rank list → AllByRecursion (λ (block : Place). block.block ≢ 0) list →
        length list ≤ most → walked_list nexts rank most (first_of (heads rank)) ≡ list }
{}

/// The head that leads to what the first block leads to has the rest of the list behind it.
pub fn pop_leaves_the_rest()
    ensures { (heads later : ℕ → ℕ) (nexts : Place → ℕ) (rank : ℕ) (block : Place) (more : List Place) →
        IsFreeList heads nexts rank (block ∷ more) → nexts block < 2 ^ 20 →
        later rank ≡ next_head (heads rank) (nexts block) → IsFreeList later nexts rank more }
{}

/// The head that leads to a block has this block in front of the list to which the block leads.
pub fn push_comes_first()
    ensures { (heads later : ℕ → ℕ) (nexts : Place → ℕ) (block : Place) (list : List Place) →
        IsFreeList heads nexts block.rank list → nexts block ≡ first_of (heads block.rank) → block.block < 2 ^ 20 →
        later block.rank ≡ next_head (heads block.rank) block.block →
        IsFreeList later nexts block.rank (block ∷ list) }
{}

/// Each exchange raises the tag. So a head that was noted and is found again stands for the same list: no exchange came
/// between.
pub fn found_again_is_unchanged()
    ensures rises { (done : List Exchange) (one : Headed) →
        tag_of one.head + length done ≤ tag_of (after_exchanges done one).head }
    ensures unchanged { (done : List Exchange) (one : Headed) →
        (after_exchanges done one).head ≡ one.head → done ≡ [] }
{}
