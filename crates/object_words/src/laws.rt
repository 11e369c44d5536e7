ghost use Rattle.std.specs.Prelude.{◌≡◌, Bool, true, List, [], ◌∷◌, ◌++◌, Some, None, MatchOption};
ghost use Rattle.rma_layout.specs.Placement.{Place};
ghost use Rattle.rma_layout.specs.Shape.{Shape};
ghost use Rattle.object_words.specs.Contents.{Contents, IsByRisingObject, content_of, overlay, words_at};
ghost use Rattle.object_words.specs.Entries.{Entry, HasBlocksOnEach, HasMaps, IsLegalHistory, contents_after, store_after};
ghost use Rattle.object_words.specs.Contents.{Agrees};

/// An object has the words that were put over it last, and where none were put, what it had.
pub fn overlay_puts_over()
    ensures { (contents writes : Contents) (object : Place) → IsByRisingObject writes →
        MatchOption (words_at writes object)
        (content_of (overlay contents writes) object ≡ content_of contents object)
        (λ words. content_of (overlay contents writes) object ≡ words) }
{}

/// One more entry puts its writes over the store. The history stays legal if what the entry read and wrote are maps, what
/// it read agrees with the store before it and, where blocks are counted, it has the blocks that it needs.
pub fn contents_after_one_more<L: crate::Law>()
    ensures store { (history : List (Entry L.Note)) (one : Entry L.Note) →
        store_after (history ++ one ∷ []) ≡ overlay (store_after history) one.writes }
    ensures legal { (counts_blocks : Bool) (shape : Shape) (history : List (Entry L.Note)) (one : Entry L.Note) →
        IsLegalHistory counts_blocks shape history → HasMaps one → Agrees one.reads (store_after history) →
        (counts_blocks ≡ true → HasBlocksOnEach shape (store_after history) one.writes) →
        IsLegalHistory counts_blocks shape (history ++ one ∷ []) }
{}
