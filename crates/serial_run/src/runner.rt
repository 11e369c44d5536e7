ghost use Rattle.std.specs.Prelude.{◌≡◌, ◌+◌, ◌<◌, ◌^◌, ℕ, List, Option, length, sum_by, IfOk, OnOk};
ghost use Rattle.gdi_kinds.specs.Calls.{is_writing};
ghost use Rattle.gdi_kinds.specs.declared.reply.Reply.{Reply as OneReply};
ghost use Rattle.plain_graph.specs.Ending.{ended_of};
ghost use Rattle.serial_run.specs.Serial.{ends};
ghost use Rattle.serial_run.specs.Runs.{MayBeFull, RunsOn, RunsOne, RunsScript, entries_behind};

use crate::ScriptRun;
use gdi_kinds::{Line, LineList, NoMemory, Outcome, Printed, Script, Section, Txn};
use map_graph::ModelRefused;
use plain_graph::{Ended, PlainGraph};
use std::alloc::Global;

/// Runs the transactions of a script one after the other on a graph, and says how each ended. The graph's history has so
/// many entries already. It is refused for want of memory alone.
pub fn run_script(
    alloc: Global,
    graph: PlainGraph,
    entries: u64,
    script: &Script,
) -> Result<ScriptRun, NoMemory>
    requires { entries + sum_by length script.now < 2 ^ 64 }
    ensures { IfOk result (RunsScript graph entries script.now) }
{
    let mut run = SerialRun {
        graph,
        lines: LineList::new(alloc),
        writes: entries,
    };
    for (index, section) in script.as_slice().iter().enumerate() {
        run_section(&mut run, index as u64 + 1, section)?;
    }
    let SerialRun {
        graph,
        lines,
        writes,
    } = run;
    let printed = Printed { lines, writes };
    Ok(ScriptRun { printed, graph })
}

/// A run so far: the graph after it, what it prints, and how many entries its history has.
#[derive(Drop)]
pub(crate) struct SerialRun {
    pub(crate) graph: PlainGraph,
    pub(crate) lines: LineList,
    pub(crate) writes: u64,
}

fn run_section(run: &mut SerialRun, number: u64, section: &Section) -> Result<(), NoMemory>
    requires { run.old.writes + length section.now < 2 ^ 64 }
    ensures { OnOk result (RunsOn run.old run.new number 1 section.now) }
{
    for (index, txn) in section.as_slice().iter().enumerate() {
        run_txn(run, number, index as u64 + 1, txn)?;
    }
    Ok(())
}

fn run_txn(run: &mut SerialRun, section: u64, number: u64, txn: &Txn) -> Result<(), NoMemory>
    requires { run.old.writes + 1 < 2 ^ 64 }
    ensures { OnOk result (RunsOne run.old run.new (record { section = section; number = number; txn = txn.now })) }
{
    let ended = match run.graph.execute(txn) {
        Ok(ended) => ended,
        Err(ModelRefused::NoMemory) => return Err(NoMemory),
    };
    let outcome = outcome_of(txn, run.writes, ended);
    run.writes = entries_behind(&outcome, run.writes);
    run.lines.push(Line {
        section,
        txn: number,
        outcome,
    })?;
    Ok(())
}

// How many entries there are behind an outcome.
fn entries_behind(outcome: &Outcome, entries: u64) -> u64
    requires { entries + 1 < 2 ^ 64 }
    ensures { result ≡ entries_behind outcome.now entries }
{
    match outcome {
        Outcome::Wrote { .. } => entries + 1,
        _ => entries,
    }
}

// How a transaction ends that runs behind so many entries.
fn outcome_of(txn: &Txn, place: u64, ended: Ended) -> Outcome
    ensures { (full : Option ℕ) (replies : List OneReply) → ended ≡ ended_of full replies → MayBeFull txn.now full
        → result ≡ ends txn.now.aborts (is_writing txn.now) full place replies }
{
    if txn.aborts {
        return Outcome::Aborted;
    }
    match ended {
        Ended::Full(rank) => Outcome::Full { rank, place },
        Ended::Done(replies) if txn.is_writing() => Outcome::Wrote { k: place, replies },
        Ended::Done(replies) => Outcome::Read { place, replies },
    }
}
