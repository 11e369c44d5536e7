ghost use Rattle.std.specs.Prelude.{◌≡◌, ◌≢◌, ◌≤◌, OnOk};
ghost use Rattle.rma_layout.specs.Shape.{Shape};
ghost use Rattle.object_store.specs.declared.phase.Phase.TheVariants.{Idle, Writing};
ghost use Rattle.held_objects.specs.Knows.{Knows};
ghost use Rattle.label_index.specs.Index.{Has, Indexes, Lacks};

use crate::keeping::Keeping;
use gdi_kinds::NumList;
use label_index::{add, ids, remove};
use object_store::{PlainStore, Store};
use rma_layout::Geometry;
use std::alloc::Global;
use std::test::Fail;

/// Enters a label of a vertex and takes another one's out.
fn exchange<S: Store<Keeping>>(
    alloc: Global,
    store: &mut S,
    label: u32,
    id: u64,
    other: u64,
) -> Result<bool, S::Refused>
    requires begun { (S.state store.old).phase ≡ Writing }
    requires apart { other ≢ id }
    requires absent { Knows (Lacks (label, id)) (S.state store.old) }
    requires present { Knows (Has (label, other)) (S.state store.old) }
    ensures begun { OnOk result ((S.state store.new).phase ≡ Writing) }
    ensures gone { OnOk result (Knows (Lacks (label, other)) (S.state store.new)) }
    ensures indexes { OnOk result (Knows Indexes (S.state store.new)) }
{
    let added = add(alloc, store, label, id)?;
    remove(alloc, store, label, other)?;
    Ok(added)
}

/// Enters a label of a vertex where nobody has it, exchanges it for that of another, and lists the vertices before and
/// behind. Nothing is committed.
fn enter_and_exchange<S: Store<Keeping>>(
    alloc: Global,
    store: &mut S,
    label: u32,
    one: u64,
    other: u64,
) -> Result<Option<NumList>, S::Refused>
    requires idle { (S.state store.old).phase ≡ Idle }
    requires apart { one ≢ other }
{
    let geometry = store.geometry();
    geometry.keeps_ranges();
    store.begin(true)?;
    let before = ids(alloc, store, label)?;
    if before.len() > 0 {
        store.abort();
        return Ok(None);
    }
    let entered = add(alloc, store, label, one)?;
    if !entered {
        store.abort();
        return Ok(None);
    }
    let _added = exchange(alloc, store, label, other, one)?;
    let after = ids(alloc, store, label)?;
    store.abort();
    Ok(Some(after))
}

#[test]
fn vertices_of_a_label(rt: HostRuntime) -> Result<(), Fail> {
    let geometry = Geometry::new(3, 100, 8, 2, 4)?;
    let mut store = PlainStore::<Keeping>::new(rt.alloc(), geometry)?;
    let Ok(Some(listed)) = enter_and_exchange(rt.alloc(), &mut store, 2, 70, 5) else {
        return Err("refused".into());
    };
    assert_eq!(rt; listed.as_slice(), [5].as_slice());
    Ok(())
}
