ghost use Rattle.rma_layout.specs.Shape.{Shape};
ghost use Rattle.object_words.specs.Entries.{Entry};

/// What a committed entry has to satisfy. It is known to contracts alone: no value of such a type is needed.
pub trait Law {
    /// What an entry means to the layers above.
    type Note;

    /// Whether an entry fits, in a window of this shape.
    ghost fits: { Shape → Entry Self.Note → Type 0 };
}

/// A value whose meaning is a note of the law.
pub trait Carries<L: Law> {
    ghost note: { Self → L.Note };
}
