ghost use Rattle.std.specs.Prelude.{◌≡◌, ◌≢◌, []};
ghost use Rattle.rma_layout.specs.Placement.{IsBlock};
ghost use Rattle.window_rule.specs.Trails.{Follows};
ghost use Rattle.block_pool.specs.Gives.{MayGive};

use block_pool::{PoolRefused, drain_spares, free_count, give, take};
use fabric::{Rank, Window};
use free_list::LAST_TAG;
use object_words::Law;
use rma_layout::{DPtr, Geometry};
use std::test::Fail;

/// A law that every entry satisfies.
struct Anything;

impl Law for Anything {
    type Note = ();

    ghost fits = { λ _ _. Unit {0} };
}

#[test]
fn blocks_are_taken_until_none_is_left(rt: HostRuntime) -> Result<(), Fail> {
    let (window, mut rank) = Window::<Anything>::new(rt.alloc(), Geometry::new(1, 8, 8, 2, 2)?)?;
    assert_eq!(rt; rank.head(&window, 0), 5);
    assert_eq!(rt; take(&window, &mut rank, 0), Ok(DPtr::new(0, 5)));
    assert_eq!(rt; rank.head(&window, 0), 1_048_582);
    assert_eq!(rt; take(&window, &mut rank, 0), Ok(DPtr::new(0, 6)));
    assert_eq!(rt; take(&window, &mut rank, 0), Ok(DPtr::new(0, 7)));
    let none = Err(PoolRefused::Empty { head: 3_145_728 });
    assert_eq!(rt; take(&window, &mut rank, 0), none);
    Ok(())
}

/// Gives two blocks back, one after the other.
fn give_two(window: &Window<Anything>, rank: &mut Rank<Anything>, one: DPtr, other: DPtr)
    requires window { rank.old.window ≡ window.now }
    requires blocks { IsBlock window.now.shape one × IsBlock window.now.shape other }
    requires one { MayGive window.now.shape rank.old one }
    requires other { MayGive window.now.shape rank.old other }
    requires differ { other ≢ one }
    ensures window { rank.new.window ≡ rank.old.window }
    ensures follows { Follows rank.old.view rank.new.view }
    ensures clean { rank.new.view.dirty ≡ [] }
{
    give(window, rank, one);
    give(window, rank, other);
}

#[test]
fn blocks_are_given_back(rt: HostRuntime) -> Result<(), Fail> {
    let (window, mut rank) = Window::<Anything>::new(rt.alloc(), Geometry::new(1, 8, 8, 2, 2)?)?;
    let Ok(one) = take(&window, &mut rank, 0) else {
        panic!(rt; "a block is free")
    };
    let Ok(other) = take(&window, &mut rank, 0) else {
        panic!(rt; "another block is free")
    };
    assert!(rt; one == DPtr::new(0, 5) && other == DPtr::new(0, 6));
    give_two(&window, &mut rank, other, one);
    assert_eq!(rt; free_count(&window, &mut rank, 0), 3);
    assert_eq!(rt; rank.head(&window, 0), 4_194_309);
    Ok(())
}

#[test]
fn no_block_is_taken_at_the_last_tag(rt: HostRuntime) -> Result<(), Fail> {
    let geometry = Geometry::new(1, 8, 8, 2, 2)?;
    let (window, mut rank) = Window::<Anything>::with_tags(rt.alloc(), geometry, LAST_TAG)?;
    let worn = PoolRefused::Worn {
        head: 18_446_744_073_708_503_045,
    };
    assert_eq!(rt; take(&window, &mut rank, 0), Err(worn));
    Ok(())
}

#[test]
fn a_block_is_kept_at_the_last_tag_and_drained(rt: HostRuntime) -> Result<(), Fail> {
    let geometry = Geometry::new(1, 8, 8, 2, 2)?;
    let (window, mut rank) = Window::<Anything>::with_tags(rt.alloc(), geometry, LAST_TAG - 1)?;
    let Ok(block) = take(&window, &mut rank, 0) else {
        panic!(rt; "a block is free")
    };
    assert_eq!(rt; block, DPtr::new(0, 5));
    let worn = PoolRefused::Worn {
        head: 18_446_744_073_708_503_046,
    };
    assert_eq!(rt; take(&window, &mut rank, 0), Err(worn));
    give(&window, &mut rank, block);
    assert_eq!(rt; rank.first_spare(0), 5);
    rank.renew(&window, 0);
    drain_spares(&window, &mut rank);
    assert_eq!(rt; rank.first_spare(0), 0);
    assert_eq!(rt; free_count(&window, &mut rank, 0), 3);
    Ok(())
}
