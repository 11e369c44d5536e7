ghost use Rattle.std.specs.Prelude.{◌≡◌, ◌+◌, ◌<◌, ◌≤◌, ◌^◌, IfOk, OnOk, length};
ghost use Rattle.object_store.specs.declared.phase.Phase.TheVariants.{Idle};
ghost use Rattle.rma_layout.specs.Placement.{IsBlock, IsReserved};
ghost use Rattle.rma_layout.specs.declared.limits.TheConstants.{MOST_WORDS};

use gdi_kinds::NoMemory;
use object_store::{PlainRefused, PlainStore, Store, give_up};
use object_words::{Carries, Law, Words};
use rma_layout::{DPtr, Geometry};
use std::alloc::Global;
use std::test::Fail;

/// A law with an empty note, which every entry fits.
struct Anything;

impl Law for Anything {
    type Note = ();

    ghost fits = { λ _ _. Unit {0} };
}

/// A value that carries the empty note.
struct Blank;

impl Carries<Anything> for Blank {
    ghost note = { λ _. tt };
}

/// Writes to a reserved object in a transaction of its own, and answers the transaction's number.
fn put<S: Store<Anything>>(store: &mut S, at: DPtr, words: Words) -> Result<u64, S::Refused>
    requires idle { (S.state store.old).phase ≡ Idle }
    requires object { IsBlock (S.state store.old).shape at × IsReserved (S.state store.old).shape at.block }
    requires few { length words ≤ MOST_WORDS }
    requires allowed { 0 < (S.state store.old).allowance }
    ensures idle { (S.state store.new).phase ≡ Idle }
    ensures shape { (S.state store.new).shape ≡ (S.state store.old).shape }
    ensures allowance { (S.state store.old).allowance ≤ (S.state store.new).allowance + 1 }
{
    store.begin(true)?;
    store.write(at, words)?;
    store.commit(&Blank)
}

/// Makes an object with so many words.
fn make<S: Store<Anything>>(
    store: &mut S,
    alloc: Global,
    home: u16,
    many: u64,
) -> Result<DPtr, S::Refused>
    requires idle { (S.state store.old).phase ≡ Idle }
    requires rank { home < (S.state store.old).shape.ranks }
    requires few { many ≤ MOST_WORDS }
    requires allowed { 0 < (S.state store.old).allowance }
    ensures idle { (S.state store.new).phase ≡ Idle }
    ensures shape { (S.state store.new).shape ≡ (S.state store.old).shape }
    ensures allowance { (S.state store.old).allowance ≤ (S.state store.new).allowance + 1 }
{
    let words = numbers(alloc, many)?;
    store.begin(true)?;
    let made = store.fresh(home)?;
    store.write(made, words)?;
    store.commit(&Blank)?;
    Ok(made)
}

/// Empties an object that has words, if it has them.
fn empty<S: Store<Anything>>(store: &mut S, alloc: Global, at: DPtr) -> Result<bool, S::Refused>
    requires idle { (S.state store.old).phase ≡ Idle }
    requires object { IsBlock (S.state store.old).shape at }
    requires allowed { 0 < (S.state store.old).allowance }
    ensures idle { (S.state store.new).phase ≡ Idle }
    ensures shape { (S.state store.new).shape ≡ (S.state store.old).shape }
    ensures allowance { (S.state store.old).allowance ≤ (S.state store.new).allowance + 1 }
{
    store.begin(true)?;
    let words = store.read(at)?;
    if words.len() == 0 {
        store.abort();
        return Ok(false);
    }
    store.write(at, Words::new(alloc))?;
    store.commit(&Blank)?;
    Ok(true)
}

/// How many words an object has, and the place at which it has them.
fn look<S: Store<Anything>>(store: &mut S, at: DPtr) -> Result<(usize, u64), S::Refused>
    requires idle { (S.state store.old).phase ≡ Idle }
    requires object { IsBlock (S.state store.old).shape at }
    ensures idle { (S.state store.new).phase ≡ Idle }
    ensures shape { (S.state store.new).shape ≡ (S.state store.old).shape }
    ensures allowance { (S.state store.new).allowance ≡ (S.state store.old).allowance }
{
    store.begin(false)?;
    let words = store.read(at)?;
    Ok((words.len(), store.finish()))
}

/// So many numbers, from 0.
fn numbers(alloc: Global, many: u64) -> Result<Words, NoMemory>
    ensures { IfOk result (λ words. length words ≡ many) }
{
    let mut words = Words::new(alloc);
    for number in 0..many {
        words.push(number)?;
    }
    Ok(words)
}

/// Makes an object on each rank, with so many words, in one transaction.
fn make_on_each<S: Store<Anything>>(
    store: &mut S,
    alloc: Global,
    ranks: u16,
    many: u64,
) -> Result<u64, S::Refused>
    requires idle { (S.state store.old).phase ≡ Idle }
    requires ranks { ranks ≤ (S.state store.old).shape.ranks }
    requires few { many ≤ MOST_WORDS }
    requires allowed { 0 < (S.state store.old).allowance }
    ensures idle { OnOk result ((S.state store.new).phase ≡ Idle) }
    ensures shape { (S.state store.new).shape ≡ (S.state store.old).shape }
    ensures allowance { (S.state store.old).allowance ≤ (S.state store.new).allowance + 1 }
{
    store.begin(true)?;
    for home in 0..ranks {
        let made = store.fresh(home)?;
        let words = numbers(alloc, many)?;
        store.write(made, words)?;
    }
    store.commit(&Blank)
}

/// Whether an object has so many words on each rank.
fn each_has<S: Store<Anything>>(
    store: &mut S,
    ranks: u16,
    block: u64,
    many: usize,
) -> Result<bool, S::Refused>
    requires idle { (S.state store.old).phase ≡ Idle }
    requires ranks { ranks ≤ (S.state store.old).shape.ranks }
    requires block { (block < (S.state store.old).shape.blocks) × (block < 64) }
    ensures idle { OnOk result ((S.state store.new).phase ≡ Idle) }
    ensures shape { (S.state store.new).shape ≡ (S.state store.old).shape }
{
    store.begin(false)?;
    let mut all = true;
    for home in 0..ranks {
        let words = store.read(DPtr::new(home, block))?;
        if words.len() != many {
            all = false;
        }
    }
    store.finish();
    Ok(all)
}

/// The blocks of the one rank of the tests' stores, of which 5 are reserved.
const BLOCKS: u64 = 8;

#[test]
fn is_refused_where_none_is_left(rt: HostRuntime) -> Result<(), Fail> {
    let alloc = rt.alloc();
    let mut store = PlainStore::<Anything>::new(alloc, Geometry::new(1, BLOCKS, 8, 2, 2)?)?;
    store.stands_alone();
    let first = make(&mut store, alloc, 0, 1)?;
    assert_eq!(rt; (first.rank(), first.block()), (0, 5));
    make(&mut store, alloc, 0, 2)?;
    make(&mut store, alloc, 0, 3)?;
    let refused = make(&mut store, alloc, 0, 4);
    assert!(rt; refused == Err(PlainRefused::Empty { rank: 0 }));
    assert!(rt; empty(&mut store, alloc, DPtr::new(0, 6))?);
    assert!(rt; !empty(&mut store, alloc, DPtr::new(0, 6))?);
    let again = make(&mut store, alloc, 0, 5)?;
    assert_eq!(rt; (again.rank(), again.block()), (0, 6));
    assert_eq!(rt; look(&mut store, DPtr::new(0, 6))?, (5, 5));
    Ok(())
}

#[test]
fn commits_on_every_rank(rt: HostRuntime) -> Result<(), Fail> {
    let alloc = rt.alloc();
    for ranks in 1..=6u16 {
        let geometry = Geometry::new(u64::from(ranks), 64, 8, 2, 2)?;
        let mut store = PlainStore::<Anything>::new(alloc, geometry)?;
        store.stands_alone();
        assert_eq!(rt; make_on_each(&mut store, alloc, ranks, 1000)?, 0);
        store.stands_alone();
        assert_eq!(rt; make_on_each(&mut store, alloc, ranks, 1)?, 1);
        assert!(rt; each_has(&mut store, ranks, 5, 1000)?, "{ranks} ranks");
        assert!(rt; each_has(&mut store, ranks, 6, 1)?, "{ranks} ranks");
        assert!(rt; each_has(&mut store, ranks, 7, 0)?, "{ranks} ranks");
    }
    Ok(())
}

#[test]
fn no_refusal_passes(rt: HostRuntime) -> Result<(), Fail> {
    let alloc = rt.alloc();
    let mut store = PlainStore::<Anything>::new(alloc, Geometry::new(1, BLOCKS, 8, 2, 2)?)?;
    store.stays_sound();
    assert!(rt; !store.again(&PlainRefused::NoMemory));
    assert!(rt; !store.again(&PlainRefused::Empty { rank: 0 }));
    Ok(())
}

#[test]
fn aborts_leave_nothing(rt: HostRuntime) -> Result<(), Fail> {
    let alloc = rt.alloc();
    let mut store = PlainStore::<Anything>::new(alloc, Geometry::new(1, BLOCKS, 8, 2, 2)?)?;
    store.stands_alone();
    let metadata = DPtr::new(0, 0);
    store.begin(true)?;
    store.write(metadata, numbers(alloc, 2)?)?;
    assert_eq!(rt; store.read(metadata)?.as_slice(), [0, 1].as_slice());
    store.abort();
    assert_eq!(rt; look(&mut store, metadata)?, (0, 0));
    let words = numbers(alloc, 3)?;
    assert_eq!(rt; put(&mut store, metadata, words)?, 0);
    assert_eq!(rt; look(&mut store, metadata)?, (3, 1));
    Ok(())
}

#[test]
fn gives_no_object_twice_in_one_transaction(rt: HostRuntime) -> Result<(), Fail> {
    let alloc = rt.alloc();
    let mut store = PlainStore::<Anything>::new(alloc, Geometry::new(1, BLOCKS, 8, 2, 2)?)?;
    store.stands_alone();
    store.begin(true)?;
    let first = store.fresh(0)?;
    store.write(first, numbers(alloc, 0)?)?;
    let second = store.fresh(0)?;
    assert_eq!(rt; (first.block(), second.block()), (5, 6));
    assert_eq!(rt; store.geometry().blocks(), BLOCKS);
    store.commit(&Blank)?;
    assert_eq!(rt; look(&mut store, DPtr::new(0, 5))?, (0, 1));
    Ok(())
}

#[test]
fn giving_up_ends_the_transaction(rt: HostRuntime) -> Result<(), Fail> {
    let alloc = rt.alloc();
    let mut store = PlainStore::<Anything>::new(alloc, Geometry::new(1, BLOCKS, 8, 2, 2)?)?;
    store.begin(true)?;
    store.write(DPtr::new(0, 0), numbers(alloc, 2)?)?;
    assert!(rt; give_up(&mut store) == PlainRefused::NoMemory);
    assert_eq!(rt; look(&mut store, DPtr::new(0, 0))?, (0, 0));
    Ok(())
}
