ghost use Rattle.std.specs.Prelude.{◌≡◌, ◌≢◌, ℕ, ◌<◌, ◌↔◌, List, length, None, slice_set};
ghost use Rattle.rma_layout.specs.declared.word.Word.{Word};
ghost use Rattle.rma_layout.specs.Shape.{Shape, window_words};
ghost use Rattle.rma_layout.specs.Ranges.{IsInRange, refusal_of};
ghost use Rattle.rma_layout.specs.Placement.{bucket_of, metadata, slot_of};
ghost use Rattle.rma_layout.specs.Words.{IsWord, number_of, word_in};

/// A shape is refused for nothing exactly where it is in all ranges.
pub fn in_range_or_refused()
    ensures { (shape : Shape) → (refusal_of shape ≡ None) ↔ IsInRange shape }
{}

/// Each word of a window has a number of its own below the total, and each number below the total is that of a word.
pub fn words_are_numbered()
    ensures below_total { (shape : Shape) (word : Word) → IsWord shape word →
        number_of shape word < window_words shape }
    ensures distinct { (shape : Shape) (one other : Word) → IsWord shape one → IsWord shape other →
        one ≢ other → number_of shape one ≢ number_of shape other }
    ensures onto { (shape : Shape) (n : ℕ) → n < window_words shape →
        (word : Word) × (IsWord shape word) × (number_of shape word ≡ n) }
{}

/// A write to one word of a window leaves every other word as it was.
pub fn writes_change_one_word()
    ensures changed { (shape : Shape) (words : List ℕ) (word : Word) (new : ℕ) →
        length words ≡ window_words shape → IsWord shape word →
        word_in shape (slice_set words (number_of shape word) new) word ≡ new }
    ensures others { (shape : Shape) (words : List ℕ) (word other : Word) (new : ℕ) →
        IsWord shape word → IsWord shape other → other ≢ word →
        word_in shape (slice_set words (number_of shape word) new) other ≡ word_in shape words other }
{}

/// A bucket, a slot and the metadata are never one object.
pub fn reserved_objects_differ()
    ensures bucket_and_slot { (shape : Shape) (id label other : ℕ) → IsInRange shape →
        bucket_of shape id ≢ slot_of shape label other }
    ensures bucket_and_metadata { (shape : Shape) (id : ℕ) → bucket_of shape id ≢ metadata }
    ensures slot_and_metadata { (shape : Shape) (label id : ℕ) → slot_of shape label id ≢ metadata }
{}
