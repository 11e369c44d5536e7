use crate::load_fault::LoadFault;
use gdi_kinds::NoMemory;

/// Why a load file is refused.
#[derive(Clone, Copy, Debug, PartialEq, Eq)]
pub enum LoadRefused {
    /// The first wrong record, and what is wrong with it. Records count from 1 behind the header; row 0 is the file or
    /// its header.
    Bad { row: u64, kind: LoadFault },
    NoMemory,
}

impl From<NoMemory> for LoadRefused {
    ghost use Rattle.std.specs.Prelude.{◌≡◌};
    ghost use Rattle.bulk_load.specs.declared.load_refused.LoadRefused.TheVariants.{NoMemory as OutOfMemory};

    ghost from_gives = { λ _ refused. refused ≡ OutOfMemory };

    fn from(_refused: NoMemory) -> LoadRefused {
        LoadRefused::NoMemory
    }
}
