//! Runs scripts on the plain graph and prints what their calls answer: people and towns, refusals, lists of values,
//! undirected edges, walks, a graph of 500 vertices, a chain of 2,000, vertices that come and go in large buckets, and aborts.
//! Each script has a graph of its own.
#![tactic(auto)]

ghost use Rattle.std.specs.Prelude.{OnOk};
ghost use Rattle.graph_model.specs.WellFormed.{IsWellFormed};

use gdi_kinds::{Bytes, Line, LineList, NoMemory, Outcome, Printed, ReplyList, Section, Txn};
use map_graph::{MapGraph, ModelRefused};
use outcome_text::print_outcomes;
use rma_layout::Geometry;
use script_text::{ScriptRefused, read_script};
use std::alloc::Global;
use std::io::Write;
use std::rt::Files;
use std::{fs, io};

fn main(rt: HostRuntime) -> io::Result<()> {
    run(&rt, "people")?;
    run(&rt, "refusals")?;
    run(&rt, "values")?;
    run(&rt, "undirected")?;
    run(&rt, "walks")?;
    run(&rt, "many")?;
    run(&rt, "chain")?;
    run(&rt, "buckets")?;
    run(&rt, "aborts")
}

// Runs the script of a file and prints its answers.
fn run<R: Files + Alloc<A = Global> + Print>(rt: &R, name: &str) -> io::Result<()> {
    let text = fs::read(rt, name)?;
    match answers(rt.alloc(), text.as_slice()) {
        Ok(answers) => io::writer(rt).write_all(answers.as_slice()),
        Err(refused) => println!(rt; "{refused:?}"),
    }
}

fn answers(alloc: Global, text: &[u8]) -> Result<Bytes, ScriptRefused> {
    let script = read_script(alloc, text)?;
    let mut graph = MapGraph::new(alloc, Geometry::standard());
    let mut lines = LineList::new(alloc);
    for section in script.as_slice() {
        run_section(&mut graph, section, &mut lines)?;
    }
    let printed = Printed { lines, writes: 0 };
    Ok(print_outcomes(alloc, &printed)?)
}

fn run_section(
    graph: &mut MapGraph,
    section: &Section,
    lines: &mut LineList,
) -> Result<(), NoMemory>
    requires { IsWellFormed graph.old.graph }
    ensures { OnOk result (IsWellFormed graph.new.graph) }
{
    for txn in section.as_slice() {
        run_txn(graph, txn, lines)?;
    }
    Ok(())
}

fn run_txn(graph: &mut MapGraph, txn: &Txn, lines: &mut LineList) -> Result<(), NoMemory>
    requires { IsWellFormed graph.old.graph }
    ensures { OnOk result (IsWellFormed graph.new.graph) }
{
    let replies = match graph.run(txn) {
        Ok(replies) => replies,
        Err(ModelRefused::NoMemory) => return Err(NoMemory),
    };
    lines.push(line_of(txn, lines.len() as u64, replies))
}

// The line of a transaction, of which all count as of one section.
fn line_of(txn: &Txn, place: u64, replies: ReplyList) -> Line {
    let outcome = if txn.aborts {
        Outcome::Aborted
    } else {
        Outcome::Read { place, replies }
    };
    Line {
        section: 1,
        txn: 1,
        outcome,
    }
}
