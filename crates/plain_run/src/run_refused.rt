use bulk_load::{LoadFault, LoadFile};
use gdi_kinds::NoMemory;

/// Why texts aren't run. Where several causes stand together the first of this order is told: what is wrong with the file
/// of the vertices, with that of the edges, with the script; no room for the vertices, for the edges.
#[derive(Clone, Copy, Debug, PartialEq, Eq)]
pub enum RunRefused {
    /// The first wrong record of a load file, from 1; row 0 is the file or its header.
    BadLoad {
        file: LoadFile,
        row: u64,
        kind: LoadFault,
    },
    /// The first wrong line of the script, from 1, and its kind, as `read_script` has them.
    BadScript {
        line: u64,
        kind: u32,
    },
    /// This rank has too few blocks for what a load file holds.
    LoadFull {
        file: LoadFile,
        rank: u16,
    },
    NoMemory,
}

impl From<NoMemory> for RunRefused {
    ghost use Rattle.std.specs.Prelude.{◌≡◌};
    ghost use Rattle.plain_run.specs.declared.run_refused.RunRefused.TheVariants.{NoMemory as OutOfMemory};

    ghost from_gives = { λ _ refused. refused ≡ OutOfMemory };

    fn from(_refused: NoMemory) -> RunRefused {
        RunRefused::NoMemory
    }
}
