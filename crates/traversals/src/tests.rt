use crate::{FlatEdge, FlatGraph, LabelRows};
use gdi_kinds::{Call, NameList, NoMemory, NumList, Pair, Reply};
use std::alloc::Global;
use std::test::Fail;

// A chain from 2 over 5 to 9, which is undirected from 5 on; a self loop at 5; and 7, a vertex without an edge.
const EDGES: [FlatEdge; 3] = [
    FlatEdge {
        source: 2,
        target: 5,
        undirected: false,
    },
    FlatEdge {
        source: 5,
        target: 9,
        undirected: true,
    },
    FlatEdge {
        source: 5,
        target: 5,
        undirected: false,
    },
];

fn chain(alloc: Global) -> Result<FlatGraph, NoMemory> {
    let ids = NumList::from_vec(vec![in alloc; 2, 5, 7, 9]?);
    let labels = LabelRows::new(alloc)
        .with(&[0, 1])?
        .with(&[])?
        .with(&[1])?
        .with(&[1])?;
    FlatGraph::gather(alloc, NameList::new(alloc), ids, labels, &EDGES)
}

fn pair(id: u64, number: u64) -> Pair {
    Pair { id, number }
}

#[test]
fn levels_and_parts(rt: HostRuntime) -> Result<(), Fail> {
    let alloc = rt.alloc();
    let flat = chain(alloc)?;
    let Some(Reply::Levels(levels)) = flat.answer(alloc, &Call::Levels { id: 2 })? else {
        return Err("levels")?;
    };
    assert_eq!(rt;
        levels.as_slice(),
        [pair(2, 0), pair(5, 1), pair(9, 2)].as_slice()
    );
    let Some(Reply::Parts(parts)) = flat.answer(alloc, &Call::Parts)? else {
        return Err("parts")?;
    };
    assert_eq!(rt; parts.as_slice(), [pair(2, 3), pair(7, 1)].as_slice());
    Ok(())
}

#[test]
fn labels(rt: HostRuntime) -> Result<(), Fail> {
    let flat = chain(rt.alloc())?;
    let found = flat.labelled(rt.alloc(), 1)?;
    assert_eq!(rt; found.as_slice(), [2, 7, 9].as_slice());
    Ok(())
}
