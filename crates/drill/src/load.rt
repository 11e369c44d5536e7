ghost use Rattle.std.specs.Prelude.{◌≡◌, ◌<◌, ◌≤◌, ◌*◌, ◌++◌, map, flat_map, IfOk, OnOk};
ghost use Rattle.std.specs.List.{range_with_len};
ghost use Rattle.drill.specs.Draws.{state_after};
ghost use Rattle.drill.specs.Drill.{all_edges, all_vertices, drill_load, edge_call, vertex_calls};

use crate::draws::Draws;
use crate::words::{local, node, number};
use gdi_kinds::{Call, CallList, Kind, ListOf, NoMemory, Txn, Value};
use std::alloc::Global;

/// The load of a drill of `n` vertices, 1 to 10,000: a transaction that makes the vertices from 0 on, and one that makes
/// as many edges, whose ends are drawn.
pub fn drill_load(alloc: Global, n: u64, seed: u64) -> Result<ListOf<Txn>, NoMemory>
    requires some { 0 < n }
    requires few { n ≤ 10000 }
    ensures { IfOk result (λ load. load ≡ drill_load n seed) }
{
    let mut load = ListOf::new(alloc);
    load.push(all_vertices(alloc, n)?)?;
    load.push(all_edges(alloc, n, seed)?)?;
    Ok(load)
}

/// The first transaction of that load: it makes the vertices, each with its number, and the label on even ones.
pub fn all_vertices(alloc: Global, n: u64) -> Result<Txn, NoMemory>
    requires { n ≤ 10000 }
    ensures { IfOk result (λ txn. txn ≡ all_vertices n) }
{
    let mut calls = CallList::new(alloc);
    calls.push(Call::NewLabel { name: node() })?;
    calls.push(Call::NewType {
        name: number(),
        kind: Kind::Int,
        many: false,
    })?;
    for id in 0..n {
        add_vertex(&mut calls, id)?;
    }
    Ok(local(calls))
}

fn add_vertex(calls: &mut CallList, id: u64) -> Result<(), NoMemory>
    requires { id < 10000 }
    ensures { OnOk result (calls.new ≡ calls.old ++ vertex_calls id) }
{
    calls.push(Call::Vertex { id })?;
    if id % 2 == 0 {
        calls.push(Call::Tag { id, label: node() })?;
    }
    calls.push(Call::Set {
        id,
        prop: number(),
        value: Value::Int(id as i64),
    })?;
    Ok(())
}

/// The second transaction of that load: it makes as many edges as there are vertices, and their ends are drawn.
pub fn all_edges(alloc: Global, n: u64, seed: u64) -> Result<Txn, NoMemory>
    requires { 0 < n }
    ensures { IfOk result (λ txn. txn ≡ all_edges n seed) }
{
    let mut draws = Draws::new(seed);
    let mut calls = CallList::new(alloc);
    for _ in 0..n {
        let source = draws.draw(n);
        let target = draws.draw(n);
        calls.push(Call::Edge {
            source,
            target,
            label: None,
        })?;
    }
    Ok(local(calls))
}
