ghost use Rattle.std.specs.Prelude.{◌≡◌, ◌+◌, ◌<◌, []};
ghost use Rattle.object_words.specs.Blocks.{contents_use};
ghost use Rattle.object_words.specs.Entries.{store_after};
ghost use Rattle.window_rule.specs.Partition.{places_of};
ghost use Rattle.window_rule.specs.RightsHold.{IsAlone};
ghost use Rattle.window_rule.specs.RoomHolds.{count_on};
ghost use Rattle.window_rule.specs.Trails.{Follows};
ghost use Rattle.block_pool.specs.Moves.{Unmoved};

use fabric::{Rank, Window};
use free_list::first;
use object_words::Law;
use rma_layout::DPtr;

/// How many blocks the free list of a home rank has, on a rank that is alone and has nothing detached.
///
/// These, the blocks of objects and the rank's own blocks on that home rank are all the blocks that it has.
pub fn free_count<L: Law>(window: &Window<L>, rank: &mut Rank<L>, home: u16) -> u64
    requires window { rank.old.window ≡ window.now }
    requires home { home < window.now.shape.ranks }
    requires alone { IsAlone window.now.shape rank.old.view }
    requires clean { rank.old.view.dirty ≡ [] }
    ensures window { rank.new.window ≡ rank.old.window }
    ensures spares { rank.new.spares ≡ rank.old.spares }
    ensures unmoved { Unmoved rank.old.view rank.new.view }
    ensures count { result + contents_use window.now.shape (store_after rank.old.view.seen) home + count_on home
        (places_of rank.old.view.private) ≡ window.now.shape.blocks }
    ensures follows { Follows rank.old.view rank.new.view }
{
    let blocks = window.geometry().blocks();
    let head = rank.head(window, home);
    let mut block = first(head);
    for count in 0..blocks {
        if block == 0 {
            return count;
        }
        block = rank.next(window, DPtr::new(home, block));
    }
    blocks
}
