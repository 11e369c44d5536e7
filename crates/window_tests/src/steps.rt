ghost use Rattle.std.specs.Prelude.{◌≡◌, ◌≤◌, ◌<◌, ◌^◌};
ghost use Rattle.rma_layout.specs.Placement.{IsBlock, IsReserved};
ghost use Rattle.window_rule.specs.Pairs.{IsAtRest};

use fabric::examples::{read_pair, write_pair};
use fabric::{Rank, Window};
use object_words::{Carries, Law};
use rma_layout::{DPtr, Geometry, Word};
use std::alloc::Global;
use std::test::Fail;
use std::thread::join_mut;

/// A law that every entry satisfies.
pub(crate) struct Anything;

impl Law for Anything {
    type Note = ();

    ghost fits = { λ _ _. Unit {0} };
}

/// A note that says nothing.
#[derive(Drop)]
pub(crate) struct NoNote;

impl Carries<Anything> for NoNote {
    ghost note = { λ _. tt };
}

fn is_for_threads<T: Send + Sync>(_value: &T) {}

fn is_sent<T: Send>(_value: &T) {}

#[test]
fn one_rank_is_never_refused(rt: HostRuntime) -> Result<(), Fail> {
    let (window, mut rank) = Window::<Anything>::new(rt.alloc(), Geometry::new(2, 8, 8, 2, 2)?)?;
    is_for_threads(&window);
    is_sent(&rank);
    let object = DPtr::new(1, 3);
    let other = DPtr::new(0, 3);
    assert_eq!(rt; rank.share_try(&window, object), Ok(()));
    assert_eq!(rt; rank.mark_try(&window, other), Ok(()));
    assert_eq!(rt; rank.rise_try(&window, object), Ok(()));
    rank.mark_leave(&window, object);
    rank.mark_leave(&window, other);
    assert_eq!(rt; rank.share_try(&window, other), Ok(()));
    rank.share_leave(&window, other);
    assert_eq!(rt; window.geometry().ranks(), 2);
    Ok(())
}

#[test]
fn two_words_are_written_and_read(rt: HostRuntime) -> Result<(), Fail> {
    let (window, mut rank) = Window::<Anything>::new(rt.alloc(), Geometry::new(1, 8, 8, 2, 2)?)?;
    let o = DPtr::new(0, 1);
    assert_eq!(rt; write_pair(&mut rank, &window, o, 5, 9, &NoNote), Ok(0));
    assert_eq!(rt; read_pair(&mut rank, &window, o), Ok(Some((5, 9))));
    assert_eq!(rt; rank.place(&window), 1);
    Ok(())
}

#[test]
fn ranks_are_refused_for_one_another(rt: HostRuntime) -> Result<(), Fail> {
    let (window, mut one) = Window::<Anything>::new(rt.alloc(), Geometry::new(2, 8, 8, 2, 2)?)?;
    let mut other = one.split(&window, 1, 10, rt.alloc())?;
    let o = DPtr::new(0, 1);

    let Ok(()) = other.mark_try(&window, o) else {
        panic!(rt; "marked")
    };
    let Err(marked) = one.share_try(&window, o) else {
        panic!(rt; "shared beside a mark")
    };
    assert_eq!(rt; marked, 4_294_967_296);
    other.mark_leave(&window, o);

    let Ok(()) = other.share_try(&window, o) else {
        panic!(rt; "shared")
    };
    let Err(shared) = one.mark_try(&window, o) else {
        panic!(rt; "marked beside a share")
    };
    assert_eq!(rt; shared, 1);
    let Ok(()) = one.share_try(&window, o) else {
        panic!(rt; "both share")
    };
    let Err(both) = one.rise_try(&window, o) else {
        panic!(rt; "rose beside a share")
    };
    assert_eq!(rt; both, 2);
    one.share_leave(&window, o);
    other.share_leave(&window, o);

    let Ok(()) = other.all_try(&window) else {
        panic!(rt; "whole")
    };
    let Err(whole) = one.writer_try(&window) else {
        panic!(rt; "a writer beside a whole one")
    };
    assert_eq!(rt; whole, 4_294_967_296);
    other.all_leave(&window);

    let Ok(()) = other.writer_try(&window) else {
        panic!(rt; "a writer")
    };
    let Err(writer) = one.all_try(&window) else {
        panic!(rt; "whole beside a writer")
    };
    assert_eq!(rt; writer, 1);
    other.writer_leave(&window);

    one.join(&window, other);
    assert_eq!(rt; one.place(&window), 0);
    Ok(())
}

/// Writes pairs of equal words, and answers how many it has committed.
fn write_often(rank: &mut Rank<Anything>, window: &Window<Anything>, o: DPtr, times: u64) -> u64
    requires window { rank.old.window ≡ window.now }
    requires object { IsBlock window.now.shape o }
    requires reserved { IsReserved window.now.shape o.block }
    requires wide { 4 < window.now.shape.words }
    requires rest { IsAtRest rank.old.view }
    requires allowed { times ≤ rank.old.view.allowance }
    ensures window { rank.new.window ≡ rank.old.window }
    ensures rest { IsAtRest rank.new.view }
    ensures few { result ≤ times }
{
    let mut written = 0;
    for k in 0..times {
        if write_pair(rank, window, o, k, k, &NoNote).is_ok() {
            written += 1;
        }
    }
    written
}

/// Reads pairs, and answers whether the two words of each that it could read were equal.
fn read_often(rank: &mut Rank<Anything>, window: &Window<Anything>, o: DPtr, times: u64) -> bool
    requires window { rank.old.window ≡ window.now }
    requires object { IsBlock window.now.shape o }
    requires reserved { IsReserved window.now.shape o.block }
    requires wide { 4 < window.now.shape.words }
    requires rest { IsAtRest rank.old.view }
    ensures window { rank.new.window ≡ rank.old.window }
    ensures rest { IsAtRest rank.new.view }
{
    let mut whole = true;
    for _ in 0..times {
        if let Ok(Some((first, second))) = read_pair(rank, window, o) {
            whole = whole && first == second;
        }
    }
    whole
}

#[test]
fn pairs_are_read_whole_while_another_rank_writes(rt: HostRuntime) -> Result<(), Fail> {
    let (window, mut one) = Window::<Anything>::new(rt.alloc(), Geometry::new(2, 8, 8, 2, 2)?)?;
    let mut other = one.split(&window, 1, 200_000, rt.alloc())?;
    let o = DPtr::new(1, 2);
    let (written, whole) = join_mut(
        &rt,
        &mut || write_often(&mut other, &window, o, 100_000),
        &mut || read_often(&mut one, &window, o, 100_000),
    );
    assert!(rt; whole, "a pair was read in the middle of its writing");
    assert_eq!(rt; one.place(&window), written);
    Ok(())
}
