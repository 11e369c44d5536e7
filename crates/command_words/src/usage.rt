use gdi_kinds::NoMemory;
use rma_layout::BadGeometry;
use std::alloc::AllocError;

/// What is wrong with the words of a command line.
#[derive(Clone, Copy, Debug, PartialEq, Eq)]
pub enum UsageKind {
    /// There is no word, or the first is no command.
    Command,
    /// The other words aren't in the command's form.
    Words,
    /// A number is misspelled or out of its range.
    Number,
    /// The numbers make no geometry.
    Geometry(BadGeometry),
}

/// Why words are refused.
#[derive(Clone, Copy, Debug, PartialEq, Eq)]
pub enum WordsRefused {
    Usage(UsageKind),
    NoMemory,
}

impl From<AllocError> for WordsRefused {
    fn from(_: AllocError) -> WordsRefused {
        WordsRefused::NoMemory
    }
}

impl From<NoMemory> for WordsRefused {
    fn from(_: NoMemory) -> WordsRefused {
        WordsRefused::NoMemory
    }
}
