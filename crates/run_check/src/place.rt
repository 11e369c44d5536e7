ghost use Rattle.std.specs.Prelude.{◌≡◌};
ghost use Rattle.run_check.specs.Places.{place_of};

use gdi_kinds::Line;

/// Where an outcome stands: the numbers of its section and of its transaction there, from 1, as they are printed. Both are 0
/// where no outcome is meant.
#[derive(Clone, Copy, Debug, PartialEq, Eq)]
pub struct Place {
    pub section: u64,
    pub txn: u64,
}

impl Place {
    /// The place that a line prints.
    pub(crate) fn of(line: &Line) -> Place
        ensures { result ≡ place_of line.now }
    {
        Place {
            section: line.section,
            txn: line.txn,
        }
    }
}
