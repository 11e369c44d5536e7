ghost use Rattle.std.specs.Prelude.{◌≡◌, OnOk};
ghost use Rattle.object_store.specs.declared.phase.Phase.TheVariants.{Idle, Writing};
ghost use Rattle.held_objects.specs.Knows.{Knows};
ghost use Rattle.graph_law.specs.Calls.{Stands};

use fabric::Window;
use gdi_kinds::{Kind, Name, Reply};
use graph_law::GraphLaw;
use graph_names::{new_label, new_type};
use graph_vertices::{has_vertex, vertex_get, vertex_props, vertex_tags};
use object_store::{PlainStore, Store};
use object_txn::WindowStore;
use rma_layout::Geometry;
use std::alloc::Global;
use std::test::Fail;

/// The replies to a label that is made twice, to a type, and to what is asked of a vertex that isn't there.
#[derive(Debug, Drop)]
struct Replies {
    label: Reply,
    again: Reply,
    typed: Reply,
    has: Reply,
    tags: Reply,
    props: Reply,
    got: Reply,
}

fn name_and_ask<S: Store<GraphLaw>>(
    alloc: Global,
    store: &mut S,
    name: &Name,
) -> Result<Replies, S::Refused>
    requires { (S.state store.old).phase ≡ Idle }
{
    store.begin(true)?;
    let label = new_label(alloc, store, name)?;
    let again = new_label(alloc, store, name)?;
    let typed = new_type(alloc, store, name, Kind::Int, true)?;
    let has = has_vertex(alloc, store, 5)?;
    let tags = vertex_tags(alloc, store, 5)?;
    let props = vertex_props(alloc, store, 5)?;
    let got = vertex_get(alloc, store, 5, name)?;
    store.abort();
    Ok(Replies {
        label,
        again,
        typed,
        has,
        tags,
        props,
        got,
    })
}

#[test]
fn names_are_made_once(rt: HostRuntime) -> Result<(), Fail> {
    let person = Name::of(b"Person").ok_or("a name")?;
    let mut store = PlainStore::<GraphLaw>::new(rt.alloc(), Geometry::standard())?;
    let Ok(replies) = name_and_ask(rt.alloc(), &mut store, &person) else {
        return Err("refused".into());
    };
    assert!(rt; matches!(&replies.label, Reply::Done));
    assert!(rt; matches!(&replies.again, Reply::Exists));
    assert!(rt; matches!(&replies.typed, Reply::Done));
    assert!(rt; matches!(&replies.has, Reply::No));
    assert!(rt; matches!(&replies.tags, Reply::NoVertex(5)));
    assert!(rt; matches!(&replies.props, Reply::NoVertex(5)));
    assert!(rt; matches!(&replies.got, Reply::NoVertex(5)));
    Ok(())
}

#[test]
fn names_are_made_once_in_a_window(rt: HostRuntime) -> Result<(), Fail> {
    let person = Name::of(b"Person").ok_or("a name")?;
    let geometry = Geometry::new(1, 64, 64, 2, 2)?;
    let (window, rank) = Window::<GraphLaw>::new(rt.alloc(), geometry)?;
    let mut store = WindowStore::over(rt.alloc(), &window, rank);
    let Ok(replies) = name_and_ask(rt.alloc(), &mut store, &person) else {
        return Err("refused".into());
    };
    assert!(rt; matches!(&replies.label, Reply::Done));
    assert!(rt; matches!(&replies.again, Reply::Exists));
    assert!(rt; matches!(&replies.typed, Reply::Done));
    assert!(rt; matches!(&replies.has, Reply::No));
    Ok(())
}
