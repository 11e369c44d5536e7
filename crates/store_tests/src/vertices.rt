ghost use Rattle.std.specs.Prelude.{◌≡◌, OnOk};
ghost use Rattle.rma_layout.specs.Shape.{Shape};
ghost use Rattle.rma_layout.specs.Placement.{IsBlock};
ghost use Rattle.object_store.specs.declared.phase.Phase.TheVariants.{Idle, Writing};
ghost use Rattle.held_objects.specs.Changes.{any};
ghost use Rattle.vertex_ops.specs.Vertices.{KnowsVertex, KnowsVertexWithSingle};

use crate::keeping::Keeping;
use gdi_kinds::{Reply, Value};
use object_store::{PlainStore, Store};
use object_words::Words;
use rma_layout::{DPtr, Geometry};
use std::alloc::Global;
use std::test::Fail;
use vertex_ops::{clear, clear_label, clear_prop, keep, load, make, set_label, set_prop};

/// The replies to a label that is set twice and cleared twice.
#[derive(Debug, Drop)]
struct Replies {
    set: Reply,
    set_again: Reply,
    cleared: Reply,
    cleared_again: Reply,
}

fn set_and_clear<S: Store<Keeping>>(
    alloc: Global,
    store: &mut S,
    at: DPtr,
    label: u32,
) -> Result<Replies, S::Refused>
    requires begun { (S.state store.old).phase ≡ Writing }
    requires object { IsBlock (S.state store.old).shape at }
    requires vertex { KnowsVertex at any (S.state store.old) }
    ensures begun { OnOk result ((S.state store.new).phase ≡ Writing) }
    ensures object { OnOk result (IsBlock (S.state store.new).shape at) }
    ensures vertex { OnOk result (KnowsVertex at any (S.state store.new)) }
{
    let set = set_label(alloc, store, at, label)?;
    let set_again = set_label(alloc, store, at, label)?;
    let cleared = clear_label(alloc, store, at, label)?;
    let cleared_again = clear_label(alloc, store, at, label)?;
    Ok(Replies {
        set,
        set_again,
        cleared,
        cleared_again,
    })
}

/// Makes a vertex, sets and clears a label, sets it again, and keeps what is loaded then.
fn make_and_keep<S: Store<Keeping>>(
    alloc: Global,
    store: &mut S,
    id: u64,
    label: u32,
) -> Result<(Replies, bool, Words), S::Refused>
    requires { (S.state store.old).phase ≡ Idle }
{
    store.begin(true)?;
    let at = make(alloc, store, id)?;
    let replies = set_and_clear(alloc, store, at, label)?;
    let _ = set_label(alloc, store, at, label)?;
    let holder = load(alloc, store, at)?;
    let kept = keep(alloc, store, at, holder)?;
    let words = store.read(at)?;
    store.abort();
    Ok((replies, kept, words))
}

/// The replies to a property that is set twice, and to one that is cleared twice; and the words between them.
#[derive(Debug, Drop)]
struct PropReplies {
    set: Reply,
    set_again: Reply,
    words: Words,
    cleared: Reply,
    cleared_again: Reply,
}

/// Sets a property of a labelled vertex to one value and then to another, and clears it twice.
fn set_and_clear_prop<S: Store<Keeping>>(
    alloc: Global,
    store: &mut S,
    id: u64,
    prop: u32,
    value: &Value,
) -> Result<PropReplies, S::Refused>
    requires { (S.state store.old).phase ≡ Idle }
{
    store.begin(true)?;
    let at = make(alloc, store, id)?;
    let set = set_prop(alloc, store, at, prop, &Value::Int(1))?;
    let set_again = set_prop(alloc, store, at, prop, value)?;
    let words = store.read(at)?;
    let cleared = clear_prop(alloc, store, at, prop)?;
    let cleared_again = clear_prop(alloc, store, at, prop)?;
    store.abort();
    Ok(PropReplies {
        set,
        set_again,
        words,
        cleared,
        cleared_again,
    })
}

/// Makes a vertex and empties its object.
fn make_and_clear<S: Store<Keeping>>(
    alloc: Global,
    store: &mut S,
    id: u64,
) -> Result<Words, S::Refused>
    requires { (S.state store.old).phase ≡ Idle }
{
    store.begin(true)?;
    let at = make(alloc, store, id)?;
    clear(alloc, store, at)?;
    let words = store.read(at)?;
    store.abort();
    Ok(words)
}

#[test]
fn labels(rt: HostRuntime) -> Result<(), Fail> {
    let mut store = PlainStore::<Keeping>::new(rt.alloc(), Geometry::standard())?;
    let Ok((replies, kept, words)) = make_and_keep(rt.alloc(), &mut store, 5, 3) else {
        return Err("refused".into());
    };
    assert!(rt; matches!(&replies.set, Reply::Done));
    assert!(rt; matches!(&replies.set_again, Reply::HasLabel));
    assert!(rt; matches!(&replies.cleared, Reply::Done));
    assert!(rt; matches!(&replies.cleared_again, Reply::LacksLabel));
    assert!(rt; kept);
    assert_eq!(rt; words.as_slice(), [5, 0, 1, 0, 0, 3].as_slice());
    Ok(())
}

#[test]
fn emptied(rt: HostRuntime) -> Result<(), Fail> {
    let mut store = PlainStore::<Keeping>::new(rt.alloc(), Geometry::standard())?;
    let Ok(words) = make_and_clear(rt.alloc(), &mut store, 5) else {
        return Err("refused".into());
    };
    assert!(rt; words.as_slice().is_empty());
    Ok(())
}

#[test]
fn properties(rt: HostRuntime) -> Result<(), Fail> {
    let mut store = PlainStore::<Keeping>::new(rt.alloc(), Geometry::standard())?;
    let Ok(found) = set_and_clear_prop(rt.alloc(), &mut store, 5, 0, &Value::Int(36)) else {
        return Err("refused".into());
    };
    assert!(rt; matches!(&found.set, Reply::Done));
    assert!(rt; matches!(&found.set_again, Reply::Done));
    assert_eq!(rt;
        found.words.as_slice(),
        [5, 0, 0, 1, 0, 0, 8, 36].as_slice()
    );
    assert!(rt; matches!(&found.cleared, Reply::Done));
    assert!(rt; matches!(&found.cleared_again, Reply::NoProp));
    Ok(())
}
