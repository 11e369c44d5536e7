ghost use Rattle.std.specs.Prelude.{◌≡◌};

use gdi_kinds::NoMemory;

/// Why a call of a plain store is refused.
#[derive(Clone, Copy, Debug, PartialEq, Eq)]
pub enum PlainRefused {
    /// No object of the rank is left that is unreserved, empty and not written by the transaction.
    Empty { rank: u16 },
    /// No memory was found.
    NoMemory,
}

impl From<NoMemory> for PlainRefused {
    ghost use Rattle.object_store.specs.declared.plain_refused.PlainRefused.TheVariants.{NoMemory};

    ghost from_gives = { λ _ why. why ≡ NoMemory };

    fn from(_none: NoMemory) -> PlainRefused {
        PlainRefused::NoMemory
    }
}
