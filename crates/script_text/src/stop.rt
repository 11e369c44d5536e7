use gdi_kinds::NoMemory as OutOfMemory;

/// Why reading stops at a line.
#[derive(Clone, Copy, Debug, PartialEq, Eq)]
pub(crate) enum Stop {
    /// The line is wrong, by this kind.
    Bad(u32),
    NoMemory,
}

impl From<OutOfMemory> for Stop {
    ghost use Rattle.std.specs.Prelude.{◌≡◌};
    ghost use Rattle.script_text.specs.declared.stop.Stop.TheVariants.{NoMemory};

    ghost from_gives = { λ _ stop. stop ≡ NoMemory };

    fn from(_refused: OutOfMemory) -> Stop {
        Stop::NoMemory
    }
}
