use crate::first_illegal;
use gdi_kinds::{
    Call, CallList, Line, LineList, NoMemory, Outcome, Printed, Reply, ReplyList, Script, Section,
    Txn,
};
use plain_graph::PlainGraph;
use rma_layout::Geometry;
use run_check::{Clause, Illegal, Place};
use std::alloc::Global;
use std::process::Abort;
use std::test::Fail;

// Two sections of one transaction each: the first makes a vertex, the second asks for it.
fn script(alloc: Global) -> Result<Script, NoMemory> {
    let mut script = Script::new(alloc);
    script.push(section(alloc, Call::Vertex { id: 7 })?)?;
    script.push(section(alloc, Call::Has { id: 7 })?)?;
    Ok(script)
}

fn section(alloc: Global, call: Call) -> Result<Section, NoMemory> {
    let mut calls = CallList::new(alloc);
    calls.push(call)?;
    let mut section = Section::new(alloc);
    section.push(Txn {
        whole: false,
        calls,
        aborts: false,
    })?;
    Ok(section)
}

fn replies(alloc: Global, reply: Reply) -> Result<ReplyList, NoMemory> {
    let mut replies = ReplyList::new(alloc);
    replies.push(reply)?;
    Ok(replies)
}

// What the two sections print, where the second looks at this place.
fn run(alloc: Global, place: u64, reply: Reply) -> Result<Printed, NoMemory> {
    let mut lines = LineList::new(alloc);
    lines.push(Line {
        section: 1,
        txn: 1,
        outcome: Outcome::Wrote {
            k: 0,
            replies: replies(alloc, Reply::Done)?,
        },
    })?;
    lines.push(Line {
        section: 2,
        txn: 1,
        outcome: Outcome::Read {
            place,
            replies: replies(alloc, reply)?,
        },
    })?;
    Ok(Printed { lines, writes: 1 })
}

#[test]
fn the_second_sees_the_first_where_it_is_behind(rt: HostRuntime) -> Result<(), Fail> {
    let alloc = rt.alloc();
    let script = script(alloc)?;
    let geometry = Geometry::standard();
    let graph = PlainGraph::new(alloc, geometry);
    let before = run(alloc, 0, Reply::No)?;
    assert_eq!(rt; first_illegal(alloc, graph, 0, &script, &before)?, None);
    let graph = PlainGraph::new(alloc, geometry);
    let behind = run(alloc, 1, Reply::Yes)?;
    assert_eq!(rt; first_illegal(alloc, graph, 0, &script, &behind)?, None);
    let graph = PlainGraph::new(alloc, geometry);
    let wrong = run(alloc, 0, Reply::Yes)?;
    let there = Some(Illegal {
        clause: Clause::Replies,
        place: Place { section: 2, txn: 1 },
    });
    assert_eq!(rt; first_illegal(alloc, graph, 0, &script, &wrong)?, there);
    Ok(())
}
