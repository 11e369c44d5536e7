ghost use Rattle.std.specs.Prelude.{◌≡◌, ◌++◌, true, IfOk, OnOk};
ghost use Rattle.std.specs.List.{AllByRecursion, flat_map};
ghost use Rattle.graph_model.specs.Maps.{has};
ghost use Rattle.graph_model.specs.Walks.{both_ways};
ghost use Rattle.graph_walks.specs.Steps.{steps_of};
ghost use Rattle.traversals.specs.Edges.{IsBetween, both_by, steps_by};
ghost use Rattle.traversals.specs.Outline.{AreSameSteps};

use crate::FlatEdge;
use gdi_kinds::NoMemory;
use graph_walks::{FlatSteps, Places, StepList};
use std::alloc::Global;

/// The steps that edges between these vertices allow.
pub(crate) fn steps_along(
    alloc: Global,
    places: Places,
    edges: &[FlatEdge],
) -> Result<FlatSteps, NoMemory>
    requires { AllByRecursion (IsBetween places) edges.now }
    ensures ids { IfOk result (λ flat. flat.ids ≡ places) }
    ensures steps { IfOk result (λ flat. AreSameSteps (steps_of flat) (flat_map steps_by edges.now)) }
{
    let mut steps = StepList::new(alloc, places, edges.len())?;
    for edge in edges {
        add_steps(&mut steps, *edge)?;
    }
    let flat = FlatSteps::gather(alloc, steps)?;
    Ok(flat)
}

/// The steps that edges between these vertices allow with directions ignored.
pub(crate) fn joining_along(
    alloc: Global,
    places: Places,
    edges: &[FlatEdge],
) -> Result<FlatSteps, NoMemory>
    requires { AllByRecursion (IsBetween places) edges.now }
    ensures ids { IfOk result (λ flat. flat.ids ≡ places) }
    ensures steps { IfOk result (λ flat. AreSameSteps (steps_of flat) (flat_map both_by edges.now)) }
{
    let mut steps = StepList::new(alloc, places, edges.len().saturating_mul(2))?;
    for edge in edges {
        add_both_ways(&mut steps, edge.source, edge.target)?;
    }
    let flat = FlatSteps::gather(alloc, steps)?;
    Ok(flat)
}

// Adds the steps that an edge between vertices allows.
fn add_steps(steps: &mut StepList, edge: FlatEdge) -> Result<(), NoMemory>
    requires { IsBetween steps.old.ids edge }
    ensures ids { OnOk result (steps.new.ids ≡ steps.old.ids) }
    ensures steps { OnOk result (steps_of steps.new ≡ steps_of steps.old ++ steps_by edge) }
{
    if edge.undirected {
        return add_both_ways(steps, edge.source, edge.target);
    }
    steps.add(edge.source, edge.target)
}

fn add_both_ways(steps: &mut StepList, from: u64, to: u64) -> Result<(), NoMemory>
    requires from { has steps.old.ids from ≡ true }
    requires to { has steps.old.ids to ≡ true }
    ensures ids { OnOk result (steps.new.ids ≡ steps.old.ids) }
    ensures steps { OnOk result (steps_of steps.new ≡ steps_of steps.old ++ both_ways from to) }
{
    steps.add(from, to)?;
    steps.add(to, from)
}
