ghost use Rattle.std.specs.Prelude.{◌≡◌, ◌≤◌, ◌<◌, ◌+◌, ◌*◌, ◌^◌, List};
ghost use Rattle.rma_layout.specs.Placement.{IsBlock, IsReserved};
ghost use Rattle.object_words.specs.Entries.{Entry};
ghost use Rattle.window_rule.specs.View.{Known};
ghost use Rattle.window_rule.specs.Lengths.{MayRead, measured};
ghost use Rattle.window_rule.specs.Pairs.{IsAtRest};

use crate::steps::{Anything, NoNote};
use fabric::examples::{read_pair, write_marked};
use fabric::{Rank, Window};
use rma_layout::{DPtr, Geometry};
use std::test::Fail;
use std::thread::join_mut;

/// The first of the two words of an object that it has locked, 0 where it has no two words.
fn first_word(rank: &mut Rank<Anything>, window: &Window<Anything>, o: DPtr) -> u64
    requires window { rank.old.window ≡ window.now }
    requires object { IsBlock window.now.shape o }
    requires reserved { IsReserved window.now.shape o.block }
    requires wide { 4 < window.now.shape.words }
    requires may { MayRead rank.old.view o }
    ensures window { rank.new.window ≡ rank.old.window }
    ensures view { (known : Known) × (history : List (Entry (Unit {0}))) × (rank.new.view ≡ measured o known history rank.old.view) }
{
    if rank.length(window, o) != 2 {
        return 0;
    }
    rank.get(window, o, 1)
}

/// Adds 1 to the words of an object, as one entry, and answers whether it was not refused.
fn count_up(rank: &mut Rank<Anything>, window: &Window<Anything>, o: DPtr) -> bool
    requires window { rank.old.window ≡ window.now }
    requires object { IsBlock window.now.shape o }
    requires reserved { IsReserved window.now.shape o.block }
    requires wide { 4 < window.now.shape.words }
    requires rest { IsAtRest rank.old.view }
    requires allowed { 0 < rank.old.view.allowance }
    ensures window { rank.new.window ≡ rank.old.window }
    ensures rest { IsAtRest rank.new.view }
    ensures allowance { rank.old.view.allowance ≤ rank.new.view.allowance + 1 }
{
    let Ok(()) = rank.writer_try(window) else {
        return false;
    };
    let Ok(()) = rank.mark_try(window, o) else {
        rank.writer_leave(window);
        return false;
    };
    let sum = first_word(rank, window, o).wrapping_add(1);
    write_marked(rank, window, o, sum, sum, &NoNote);
    true
}

/// Adds 1 to each of two objects, so many times, and answers how often it was not refused.
fn count_often(
    rank: &mut Rank<Anything>,
    window: &Window<Anything>,
    one: DPtr,
    other: DPtr,
    times: u64,
) -> u64
    requires window { rank.old.window ≡ window.now }
    requires object { IsBlock window.now.shape one }
    requires reserved { IsReserved window.now.shape one.block }
    requires other { IsBlock window.now.shape other }
    requires reserved_too { IsReserved window.now.shape other.block }
    requires wide { 4 < window.now.shape.words }
    requires rest { IsAtRest rank.old.view }
    requires allowed { 2 * times ≤ rank.old.view.allowance }
    requires few { times < 2 ^ 60 }
    ensures window { rank.new.window ≡ rank.old.window }
    ensures rest { IsAtRest rank.new.view }
    ensures few { result ≤ 2 * times }
{
    let mut done = 0;
    for _ in 0..times {
        done += u64::from(count_up(rank, window, one));
        done += u64::from(count_up(rank, window, other));
    }
    done
}

#[test]
fn two_ranks_count_to_the_sum(rt: HostRuntime) -> Result<(), Fail> {
    let (window, mut one) = Window::<Anything>::new(rt.alloc(), Geometry::new(2, 8, 8, 2, 2)?)?;
    let mut other = one.split(&window, 1, 200_000, rt.alloc())?;
    let a = DPtr::new(0, 1);
    let b = DPtr::new(1, 2);
    let (mine, theirs) = join_mut(
        &rt,
        &mut || count_often(&mut one, &window, a, b, 50_000),
        &mut || count_often(&mut other, &window, b, a, 50_000),
    );
    let first = read_pair(&mut one, &window, a);
    let second = read_pair(&mut one, &window, b);
    let (Ok(Some((x, _))), Ok(Some((y, _)))) = (first, second) else {
        panic!(rt; "both were written")
    };
    assert_eq!(rt; x.wrapping_add(y), mine + theirs);
    assert_eq!(rt; one.place(&window), mine + theirs);
    Ok(())
}
