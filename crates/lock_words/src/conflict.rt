ghost use Rattle.std.specs.Prelude.{◌↔◌, IsTrue};
ghost use Rattle.lock_words.specs.Conflicts.{Conflicts};

use crate::{MARK, WHOLE, Want};

/// Whether a word stands in the way of a want. A share or a place that is about to be taken back does too.
pub fn conflicts(want: Want, word: u64) -> bool
    ensures { IsTrue result ↔ Conflicts want word }
{
    match want {
        Want::Share => word / MARK % 2 == 1,
        Want::Mark => word != 0,
        Want::Rise => word != 1,
        Want::Writer => word / WHOLE != 0,
        Want::Whole => word % WHOLE != 0,
    }
}
