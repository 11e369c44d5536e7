ghost use Rattle.std.specs.Prelude.{◌≡◌, ◌<◌, ◌≤◌, ◌+◌, ◌*◌, ◌/◌, map, length, filter, Some, slice_get, IfOk, OnOk};
ghost use Rattle.std.specs.List.{range_with_len};
ghost use Rattle.drill.specs.Draws.{state_after};
ghost use Rattle.drill.specs.Drill.{asks, drill_script, grows, section_of, step_of, target_of};

use crate::draws::Draws;
use crate::words::{local, number};
use gdi_kinds::{Call, CallList, Dir, NoMemory, NumList, Script, Section, Txn, Value};
use std::alloc::Global;

const SECTIONS: u64 = 8;

/// The script of a drill of `n` vertices, 1 to 10,000: eight sections, round which the vertices go. An even vertex gets an
/// edge to a vertex that is drawn, after the draws of the load, and an odd one is asked for its neighbours.
pub fn drill_script(alloc: Global, n: u64, seed: u64) -> Result<Script, NoMemory>
    requires some { 0 < n }
    requires few { n ≤ 10000 }
    ensures { IfOk result (λ script. script ≡ drill_script n seed) }
{
    let targets = targets(alloc, n, seed)?;
    let mut script = Script::new(alloc);
    for s in 0..SECTIONS {
        script.push(section(alloc, n, seed, &targets, s)?)?;
    }
    Ok(script)
}

// What is drawn for the even vertices, behind the draws of the load.
fn targets(alloc: Global, n: u64, seed: u64) -> Result<NumList, NoMemory>
    requires some { 0 < n }
    requires few { n ≤ 10000 }
    ensures { IfOk result (λ targets. targets ≡ map (target_of n seed) (range_with_len 0 ((n + 1) / 2))) }
{
    let mut draws = behind_load(n, seed);
    let mut targets = NumList::new(alloc);
    for _ in 0..n.div_ceil(2) {
        targets.push(draws.draw(n))?;
    }
    Ok(targets)
}

// The generator behind the draws of the load.
fn behind_load(n: u64, seed: u64) -> Draws
    requires { n ≤ 10000 }
    ensures { result ≡ state_after seed (2 * n) }
{
    let mut draws = Draws::new(seed);
    for _ in 0..2 * n {
        draws.step();
    }
    draws
}

fn section(alloc: Global, n: u64, seed: u64, targets: &NumList, s: u64) -> Result<Section, NoMemory>
    requires few { n ≤ 10000 }
    requires targets { targets.now ≡ map (target_of n seed) (range_with_len 0 ((n + 1) / 2)) }
    ensures { IfOk result (λ section. section ≡ section_of n seed s) }
{
    let mut section = Section::new(alloc);
    for i in 0..n {
        if i % SECTIONS == s {
            section.push(step(alloc, n, seed, targets, i)?)?;
        }
    }
    Ok(section)
}

// What is done at a vertex.
fn step(alloc: Global, n: u64, seed: u64, targets: &NumList, i: u64) -> Result<Txn, NoMemory>
    requires few { n ≤ 10000 }
    requires below { i < n }
    requires targets { targets.now ≡ map (target_of n seed) (range_with_len 0 ((n + 1) / 2)) }
    ensures { IfOk result (λ txn. txn ≡ step_of n seed i) }
{
    if i % 2 == 0 {
        grows(alloc, i, target_at(n, seed, targets, i / 2))
    } else {
        asks(alloc, i)
    }
}

fn target_at(n: u64, seed: u64, targets: &NumList, k: u64) -> u64
    requires below { k < (n + 1) / 2 }
    requires targets { targets.now ≡ map (target_of n seed) (range_with_len 0 ((n + 1) / 2)) }
    ensures { result ≡ target_of n seed k }
{
    *targets.at(k as usize)
}

fn grows(alloc: Global, i: u64, target: u64) -> Result<Txn, NoMemory>
    requires { i < 10000 }
    ensures { IfOk result (λ txn. txn ≡ grows i target) }
{
    let mut calls = CallList::new(alloc);
    calls.push(Call::Edge {
        source: i,
        target,
        label: None,
    })?;
    calls.push(Call::Set {
        id: i,
        prop: number(),
        value: Value::Int(i as i64 + 1),
    })?;
    Ok(local(calls))
}

fn asks(alloc: Global, i: u64) -> Result<Txn, NoMemory>
    ensures { IfOk result (λ txn. txn ≡ asks i) }
{
    let mut calls = CallList::new(alloc);
    calls.push(Call::Near {
        id: i,
        dir: Dir::Either,
    })?;
    Ok(local(calls))
}
