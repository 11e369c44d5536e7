ghost use Rattle.std.specs.Prelude.{◌≡◌, ◌<◌, ℕ, List, [], Some};
ghost use Rattle.rma_layout.specs.Placement.{IsBlock, Place};
ghost use Rattle.object_words.specs.Contents.{IsByRisingObject, words_at};
ghost use Rattle.window_rule.specs.Commit.{Commits, entry_by};
ghost use Rattle.object_txn.specs.Plans.{AreWritten, HasRoom};

use fabric::{Enters, Rank, Window};
use object_store::Objects;
use object_words::{Carries, Law};

/// A note with what its transaction has read and written.
#[derive(Drop)]
struct Entering<'a, C> {
    note: &'a C,
    reads: &'a Objects,
    writes: &'a Objects,
}

impl<'a, L: Law, C: Carries<L>> Carries<L> for Entering<'a, C> {
    ghost note = { λ entering. C.note entering.note.now };
}

impl<'a, L: Law, C: Carries<L>> Enters<L> for Entering<'a, C> {
    ghost reads = { λ entering. entering.reads.now };

    ghost writes = { λ entering. entering.writes.now };
}

/// Makes what was read and written the next entry of the history, once all that was written is attached. It takes no
/// memory.
pub(crate) fn place_entry<L: Law, C: Carries<L>>(
    window: &Window<L>,
    rank: &mut Rank<L>,
    reads: &Objects,
    writes: &Objects,
    note: &C,
) -> u64
    requires window { rank.old.window ≡ window.now }
    requires allowed { 0 < rank.old.view.allowance }
    requires fits { L.fits window.now.shape (entry_by rank.old.view reads.now writes.now (C.note note.now)) }
    requires reads_in_order { IsByRisingObject reads.now }
    requires writes_in_order { IsByRisingObject writes.now }
    requires inside { (object : Place) (words : List ℕ) → words_at reads.now object ≡ Some words → IsBlock window.now.shape object }
    requires written { AreWritten reads.now writes.now [] rank.old.view }
    requires room { HasRoom window.now.shape [] rank.old.view }
    ensures window { rank.new.window ≡ rank.old.window }
    ensures spares { rank.new.spares ≡ rank.old.spares }
    ensures placed { Commits (entry_by rank.old.view reads.now writes.now (C.note note.now)) rank.old.view result rank.new.view }
{
    let entering = Entering {
        note,
        reads,
        writes,
    };
    rank.commit(window, &entering)
}
