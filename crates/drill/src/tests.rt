use crate::{drill_load, drill_script};
use gdi_kinds::{Call, Txn};
use std::process::Abort;
use std::test::Fail;

// The ends of the edges that a transaction makes.
fn ends_of(rt: &impl Abort, txn: &Txn, ends: &[(u64, u64)]) {
    let mut made = 0usize;
    for call in txn.calls.as_slice() {
        if let Call::Edge { source, target, .. } = call {
            assert_eq!(rt; ends.get(made), Some(&(*source, *target)));
            made += 1;
        }
    }
    assert_eq!(rt; made, ends.len());
}

#[test]
fn four_vertices_are_drilled(rt: HostRuntime) -> Result<(), Fail> {
    let load = drill_load(rt.alloc(), 4, 1)?;
    assert_eq!(rt; load.len(), 2);
    ends_of(&rt, load.at(1), &[(1, 1), (1, 0), (3, 3), (3, 1)]);
    let script = drill_script(rt.alloc(), 4, 1)?;
    assert_eq!(rt; script.len(), 8);
    ends_of(&rt, script.at(0).at(0), &[(0, 0)]);
    ends_of(&rt, script.at(2).at(0), &[(2, 1)]);
    Ok(())
}

#[test]
fn the_largest_drill_is_made(rt: HostRuntime) -> Result<(), Fail> {
    for seed in [7, 65536, u64::MAX] {
        let load = drill_load(rt.alloc(), 10_000, seed)?;
        assert_eq!(rt; load.at(0).calls.len(), 25_002);
        assert_eq!(rt; load.at(1).calls.len(), 10_000);
        let script = drill_script(rt.alloc(), 10_000, seed)?;
        let last = script.as_slice().last().ok_or("no section")?;
        assert_eq!(rt; last.len(), 1250);
    }
    Ok(())
}
