ghost use Rattle.std.specs.Prelude.{◌≡◌};
ghost use Rattle.holder_codec.specs.declared.unread.Unread.TheVariants.{NoMemory};
ghost use Rattle.holder_codec.specs.Reading.{unread_of};

use gdi_kinds::{NoMemory, Unfit};
use std::alloc::{AllocError, AllocFailed};

/// Why nothing is read from words.
#[derive(Clone, Copy, Debug, PartialEq, Eq)]
pub(crate) enum Unread {
    /// They aren't the spelling of what is to be read.
    NotSpelled,
    NoMemory,
}

impl From<NoMemory> for Unread {
    ghost from_gives = { λ _ unread. unread ≡ NoMemory };

    fn from(_refused: NoMemory) -> Unread {
        Unread::NoMemory
    }
}

impl From<AllocError> for Unread {
    ghost from_gives = { λ _ unread. unread ≡ NoMemory };

    fn from(_refused: AllocError) -> Unread {
        Unread::NoMemory
    }
}

impl<T: Drop> From<AllocFailed<T>> for Unread {
    ghost from_gives = { λ _ unread. unread ≡ NoMemory };

    fn from(_refused: AllocFailed<T>) -> Unread {
        Unread::NoMemory
    }
}

impl From<Unfit> for Unread {
    ghost from_gives = { λ unfit unread. unread ≡ unread_of unfit };

    fn from(unfit: Unfit) -> Unread {
        match unfit {
            Unfit::NotText => Unread::NotSpelled,
            Unfit::NoMemory => Unread::NoMemory,
        }
    }
}
