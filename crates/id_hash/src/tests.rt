ghost use Rattle.std.specs.Prelude.{◌≡◌, ◌≢◌, ◌≤◌, true, IfOk, OnOk};
ghost use Rattle.rma_layout.specs.Shape.{Shape};
ghost use Rattle.object_words.specs.Contents.{Contents, Agrees, overlay};
ghost use Rattle.graph_model.specs.Graph.{Graph};
ghost use Rattle.object_store.specs.declared.phase.Phase.TheVariants.{Idle, Writing};
ghost use Rattle.held_objects.specs.Knows.{Knows};
ghost use Rattle.id_hash.specs.Buckets.{Has, Lacks, Leads};
ghost use Rattle.holder_codec.specs.Represents.{Represents};
ghost use Rattle.holder_codec.specs.Keeping.{keeps_by_steps};

use crate::{add, find, remove, room};
use holder_codec::KeepsGraph;
use object_store::{PlainStore, Store};
use object_words::Law;
use rma_layout::{DPtr, Geometry};
use std::alloc::Global;
use std::test::Fail;

/// The least that a law asks for that keeps a graph: what was a graph is one with the writes.
struct Keeping;

impl Law for Keeping {
    type Note = ();

    ghost fits = { λ shape entry. (store : Contents) (g : Graph) → Represents shape store g → Agrees entry.reads store →
        (h : Graph) × Represents shape (overlay store entry.writes) h };
}

impl KeepsGraph for Keeping {
    ghost keeps_graph = { keeps_by_steps Self.fits (λ shape entry store g range fits is agrees. fits store g is agrees) };
}

/// What a transaction finds of an identifier that it adds, and that it removes again.
#[derive(Clone, Copy, Debug, PartialEq, Eq)]
struct Findings {
    has_room: bool,
    added: bool,
    is_spelled: bool,
    found: Option<DPtr>,
    left: Option<DPtr>,
}

/// Adds an identifier that is absent, looks at the words of its bucket, and removes it. Nothing is committed.
fn add_and_remove<S: Store<Keeping>>(
    alloc: Global,
    store: &mut S,
    id: u64,
    at: DPtr,
) -> Result<Option<Findings>, S::Refused>
    requires { (S.state store.old).phase ≡ Idle }
{
    let geometry = store.geometry();
    geometry.keeps_ranges();
    store.begin(true)?;
    if find(alloc, store, id)?.is_some() {
        store.abort();
        return Ok(None);
    }
    let has_room = room(alloc, store, id)?;
    let added = add(alloc, store, id, at)?;
    let words = store.read(geometry.bucket(id))?;
    let is_spelled = words.as_slice() == [id, at.raw()].as_slice();
    let found = find(alloc, store, id)?;
    if found.is_none() {
        store.abort();
        return Ok(None);
    }
    remove(alloc, store, id)?;
    let left = find(alloc, store, id)?;
    store.abort();
    Ok(Some(Findings {
        has_room,
        added,
        is_spelled,
        found,
        left,
    }))
}

/// Makes an object for an absent vertex and lets its bucket lead there. The bucket is asked for room before.
fn make<S: Store<Keeping>>(
    alloc: Global,
    store: &mut S,
    id: u64,
) -> Result<Option<DPtr>, S::Refused>
    requires begun { (S.state store.old).phase ≡ Writing }
    requires leads { Knows Leads (S.state store.old) }
    ensures begun { OnOk result ((S.state store.new).phase ≡ Writing) }
    ensures leads { OnOk result (Knows Leads (S.state store.new)) }
{
    let geometry = store.geometry();
    geometry.keeps_ranges();
    if find(alloc, store, id)?.is_some() {
        return Ok(None);
    }
    if !room(alloc, store, id)? {
        return Ok(None);
    }
    let made = store.fresh(geometry.home(id))?;
    let added = add(alloc, store, id, made)?;
    Ok(added.then_some(made))
}

/// Makes so many vertices, and takes each out again that was found at its object. It answers how many were.
fn make_many<S: Store<Keeping>>(
    alloc: Global,
    store: &mut S,
    many: u64,
) -> Result<(u64, u64), S::Refused>
    requires idle { (S.state store.old).phase ≡ Idle }
    requires few { many ≤ 1000 }
{
    let geometry = store.geometry();
    geometry.keeps_ranges();
    store.begin(true)?;
    let mut made = 0u64;
    for id in 0..many {
        if make(alloc, store, id)?.is_some() {
            made = id + 1;
        }
    }
    let mut removed = 0u64;
    for id in 0..many {
        if find(alloc, store, id)?.is_some() {
            remove(alloc, store, id)?;
            removed = id + 1;
        }
    }
    store.abort();
    Ok((made, removed))
}

/// Adds one identifier, and finds that another is as before and can be taken out.
fn add_beside<S: Store<Keeping>>(
    alloc: Global,
    store: &mut S,
    one: u64,
    other: u64,
    at: DPtr,
) -> Result<bool, S::Refused>
    requires begun { (S.state store.old).phase ≡ Writing }
    requires apart { other ≢ one }
    requires absent { Knows (Lacks one) (S.state store.old) }
    requires present { Knows (Has other) (S.state store.old) }
    ensures both { IfOk result (λ added. added ≡ true → Knows (Has one) (S.state store.new)) }
    ensures gone { OnOk result (Knows (Lacks other) (S.state store.new)) }
{
    let added = add(alloc, store, one, at)?;
    remove(alloc, store, other)?;
    Ok(added)
}

#[test]
fn calls(rt: HostRuntime) -> Result<(), Fail> {
    let at = DPtr::new(1, 81);
    let mut store = PlainStore::<Keeping>::new(rt.alloc(), Geometry::standard())?;
    let Ok(findings) = add_and_remove(rt.alloc(), &mut store, 5, at) else {
        return Err("refused".into());
    };
    let wanted = Findings {
        has_room: true,
        added: true,
        is_spelled: true,
        found: Some(at),
        left: None,
    };
    assert_eq!(rt; findings, Some(wanted));
    Ok(())
}

#[test]
fn many_vertices(rt: HostRuntime) -> Result<(), Fail> {
    for (ranks, buckets) in [(1, 1), (3, 1), (5, 7)] {
        let geometry = Geometry::new(ranks, 1000, 8, buckets, 2)?;
        let mut store = PlainStore::<Keeping>::new(rt.alloc(), geometry)?;
        let Ok(findings) = make_many(rt.alloc(), &mut store, 500) else {
            return Err("refused".into());
        };
        assert_eq!(rt; findings, (500, 500));
    }
    Ok(())
}
