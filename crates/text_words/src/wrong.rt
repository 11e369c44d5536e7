/// What is wrong with the words behind a call's word.
#[derive(Clone, Copy, Debug, PartialEq, Eq)]
pub enum Wrong {
    /// They aren't of the call's form.
    Form,
    /// They are, and the leftmost one that is misspelled should be a number.
    Number,
    /// It should be a value.
    Value,
    /// It should be a name.
    Name,
    NoMemory,
}

impl From<gdi_kinds::NoMemory> for Wrong {
    ghost use Rattle.std.specs.Prelude.{◌≡◌};
    ghost use Rattle.text_words.specs.declared.wrong.Wrong.TheVariants.{NoMemory};

    ghost from_gives = { λ _ told. told ≡ NoMemory };

    fn from(_refused: gdi_kinds::NoMemory) -> Wrong {
        Wrong::NoMemory
    }
}
