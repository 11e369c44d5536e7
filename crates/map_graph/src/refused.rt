use gdi_kinds::NoMemory;
use std::alloc::AllocFailed;

/// Why a plain graph doesn't answer. After it the graph is only to be dropped.
#[derive(Clone, Copy, Debug, PartialEq, Eq)]
pub enum ModelRefused {
    NoMemory,
}

impl From<NoMemory> for ModelRefused {
    fn from(_refused: NoMemory) -> ModelRefused {
        ModelRefused::NoMemory
    }
}

impl<T: Drop> From<AllocFailed<T>> for ModelRefused {
    fn from(_refused: AllocFailed<T>) -> ModelRefused {
        ModelRefused::NoMemory
    }
}
