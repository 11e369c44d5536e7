ghost use Rattle.std.specs.Prelude.{◌≡◌, ◌+◌, ◌<◌, ◌≤◌, IfOk, length};
ghost use Rattle.object_store.specs.declared.phase.Phase.TheVariants.{Idle};
ghost use Rattle.rma_layout.specs.Placement.{IsBlock, IsReserved};
ghost use Rattle.rma_layout.specs.declared.limits.TheConstants.{MOST_WORDS};

use crate::steps::{Anything, NoNote};
use block_pool::free_count;
use fabric::Window;
use gdi_kinds::NoMemory;
use lock_words::Want;
use object_store::Store;
use object_txn::{TxnRefused, WindowStore};
use object_words::Words;
use rma_layout::{DPtr, Geometry};
use std::alloc::Global;
use std::test::Fail;

#[test]
fn a_transaction_reads_and_finishes(rt: HostRuntime) -> Result<(), Fail> {
    let geometry = Geometry::new(1, 8, 8, 2, 2)?;
    let (window, rank) = Window::<Anything>::new(rt.alloc(), geometry)?;
    let mut store = WindowStore::over(rt.alloc(), &window, rank);
    assert_eq!(rt; store.geometry().blocks(), 8);
    store.stays_sound();
    let Ok(()) = store.begin(false) else {
        panic!(rt; "begun")
    };
    let Ok(words) = store.read(DPtr::new(0, 1)) else {
        panic!(rt; "read")
    };
    assert_eq!(rt; words.len(), 0);
    assert_eq!(rt; store.finish(), 0);
    Ok(())
}

#[test]
fn a_transaction_writes_and_aborts(rt: HostRuntime) -> Result<(), Fail> {
    let geometry = Geometry::new(1, 8, 8, 2, 2)?;
    let (window, rank) = Window::<Anything>::new(rt.alloc(), geometry)?;
    let mut store = WindowStore::over(rt.alloc(), &window, rank);
    let Ok(()) = store.begin(true) else {
        panic!(rt; "begun")
    };
    let Ok(made) = store.fresh(0) else {
        panic!(rt; "made")
    };
    assert_eq!(rt; made, DPtr::new(0, 5));
    let mut words = Words::new(rt.alloc());
    words.push(7)?;
    let Ok(()) = store.write(made, words) else {
        panic!(rt; "written")
    };
    let Ok(own) = store.read(made) else {
        panic!(rt; "read")
    };
    assert!(rt; own.len() == 1 && *own.at(0) == 7);
    let mut store = WindowStore::over(rt.alloc(), &window, store.into_rank());
    let Ok(()) = store.begin(true) else {
        panic!(rt; "begun again")
    };
    let Ok(again) = store.fresh(0) else {
        panic!(rt; "made again")
    };
    assert_eq!(rt; again, made);
    store.abort();
    Ok(())
}

/// Reads an object and writes it, makes another beside it with so many words, and commits.
fn commit_both<S: Store<Anything>>(
    store: &mut S,
    alloc: Global,
    at: DPtr,
    many: u64,
) -> Result<(DPtr, u64), S::Refused>
    requires idle { (S.state store.old).phase ≡ Idle }
    requires object { IsBlock (S.state store.old).shape at × IsReserved (S.state store.old).shape at.block }
    requires rank { 0 < (S.state store.old).shape.ranks }
    requires few { many + 1 ≤ MOST_WORDS }
    requires allowed { 0 < (S.state store.old).allowance }
    ensures made { IfOk result (λ done. IsBlock (S.state store.old).shape done.0) }
    ensures idle { (S.state store.new).phase ≡ Idle }
    ensures shape { (S.state store.new).shape ≡ (S.state store.old).shape }
    ensures base { (S.state store.new).base ≡ (S.state store.old).base }
    ensures allowance { (S.state store.old).allowance ≤ (S.state store.new).allowance + 1 }
{
    let one = numbers(alloc, many + 1)?;
    let two = numbers(alloc, many)?;
    store.begin(true)?;
    store.read(at)?;
    store.write(at, one)?;
    let made = store.fresh(0)?;
    store.write(made, two)?;
    let number = store.commit(&NoNote)?;
    Ok((made, number))
}

/// How many words an object has, and the place at which it has them.
fn look<S: Store<Anything>>(store: &mut S, at: DPtr) -> Result<(usize, u64), S::Refused>
    requires idle { (S.state store.old).phase ≡ Idle }
    requires object { IsBlock (S.state store.old).shape at }
    ensures idle { (S.state store.new).phase ≡ Idle }
    ensures shape { (S.state store.new).shape ≡ (S.state store.old).shape }
    ensures base { (S.state store.new).base ≡ (S.state store.old).base }
    ensures allowance { (S.state store.new).allowance ≡ (S.state store.old).allowance }
{
    store.begin(false)?;
    let words = store.read(at)?;
    Ok((words.len(), store.finish()))
}

/// So many numbers, from 0.
fn numbers(alloc: Global, many: u64) -> Result<Words, NoMemory>
    ensures { IfOk result (λ words. length words ≡ many) }
{
    let mut words = Words::new(alloc);
    for number in 0..many {
        words.push(number)?;
    }
    Ok(words)
}

#[test]
fn a_transaction_commits(rt: HostRuntime) -> Result<(), Fail> {
    let alloc = rt.alloc();
    let geometry = Geometry::new(1, 12, 8, 2, 2)?;
    let (window, mut rank) = Window::<Anything>::new(alloc, geometry)?;
    assert_eq!(rt; free_count(&window, &mut rank, 0), 7);
    let mut store = WindowStore::over(alloc, &window, rank);
    let object = DPtr::new(0, 1);
    let Ok((made, number)) = commit_both(&mut store, alloc, object, 14) else {
        panic!(rt; "committed")
    };
    assert_eq!(rt; number, 0);
    assert_eq!(rt; look(&mut store, object), Ok((15, 1)));
    assert_eq!(rt; look(&mut store, made), Ok((14, 1)));
    let mut rank = store.into_rank();
    assert_eq!(rt; free_count(&window, &mut rank, 0), 3);
    Ok(())
}

#[test]
fn a_refused_commit_leaves_nothing(rt: HostRuntime) -> Result<(), Fail> {
    let alloc = rt.alloc();
    let geometry = Geometry::new(1, 8, 8, 2, 2)?;
    let (window, mut rank) = Window::<Anything>::new(alloc, geometry)?;
    assert_eq!(rt; free_count(&window, &mut rank, 0), 3);
    let mut store = WindowStore::over(alloc, &window, rank);
    let object = DPtr::new(0, 1);
    let refused = commit_both(&mut store, alloc, object, 21);
    assert!(rt; matches!(refused, Err(TxnRefused::Empty { rank: 0, head: _ })));
    assert_eq!(rt; look(&mut store, object), Ok((0, 0)));
    let mut rank = store.into_rank();
    assert_eq!(rt; free_count(&window, &mut rank, 0), 3);
    Ok(())
}

#[test]
fn a_read_is_refused_beside_a_mark(rt: HostRuntime) -> Result<(), Fail> {
    let (window, mut one) = Window::<Anything>::new(rt.alloc(), Geometry::new(2, 8, 8, 2, 2)?)?;
    let other = one.split(&window, 1, 10, rt.alloc())?;
    let object = DPtr::new(0, 1);
    let mut writer = WindowStore::over(rt.alloc(), &window, other);
    let mut reader = WindowStore::over(rt.alloc(), &window, one);
    let Ok(()) = writer.begin(true) else {
        panic!(rt; "begun")
    };
    let Ok(()) = writer.write(object, Words::new(rt.alloc())) else {
        panic!(rt; "written")
    };
    let Ok(()) = reader.begin(false) else {
        panic!(rt; "begun")
    };
    let Err(why) = reader.read(object) else {
        panic!(rt; "read beside a mark")
    };
    let busy = TxnRefused::Busy {
        object,
        want: Want::Share,
        word: 4_294_967_296,
    };
    assert!(rt; why == busy);
    writer.abort();
    let Ok(()) = reader.begin(false) else {
        panic!(rt; "begun again")
    };
    let Ok(words) = reader.read(object) else {
        panic!(rt; "read")
    };
    assert_eq!(rt; words.len(), 0);
    assert_eq!(rt; reader.finish(), 0);
    Ok(())
}
