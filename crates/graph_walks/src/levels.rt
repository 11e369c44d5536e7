ghost use Rattle.std.specs.Prelude.{◌≡◌, ℕ, ◌<◌, ◌≤◌, ◌&&◌, ◌||◌, Some, None, length, is_none, slice_index, IsTrue, IfOk, OnOk, if◌then◌else◌, ◌==◌};
ghost use Rattle.std.specs.List.{list_any};
ghost use Rattle.std.specs.Option.{option_or};
ghost use Rattle.graph_model.specs.Maps.{has};
ghost use Rattle.graph_model.specs.Walks.{is_walk_by, least_below};
ghost use Rattle.graph_walks.specs.Marks.{mark_at};
ghost use Rattle.graph_walks.specs.Steps.{leads, steps_of};

use crate::FlatSteps;
use crate::marks::Marks;
use gdi_kinds::NoMemory;
use std::alloc::Global;
use std::mem;

/// Marks each vertex with its level, the least number of steps of a walk to it from `from`, where that is below `bound`.
pub(crate) fn levels_from(
    alloc: Global,
    steps: &FlatSteps,
    from: u64,
    bound: u32,
) -> Result<Marks, NoMemory>
    requires { 1 ≤ bound }
    ensures len { IfOk result (λ levels. length levels ≡ length steps.now.ids) }
    ensures levels { IfOk result (λ levels. (place : ℕ) → place < length steps.now.ids → mark_at levels place
        ≡ least_below (λ n. is_walk_by (steps_of steps.now) n from (slice_index steps.now.ids place)) bound) }
{
    let count = steps.len();
    let Some(place) = steps.places().place(from) else {
        let unmarked = Marks::new(alloc, count)?;
        return Ok(unmarked);
    };
    let levels = levels_at(alloc, steps, place, bound)?;
    Ok(levels)
}

// The same by places.
fn levels_at(alloc: Global, steps: &FlatSteps, from: usize, bound: u32) -> Result<Marks, NoMemory>
    requires bound { 1 ≤ bound }
    requires from { from < length steps.now.ids }
    ensures len { IfOk result (λ levels. length levels ≡ length steps.now.ids) }
    ensures levels { IfOk result (λ levels. (j : ℕ) → mark_at levels j ≡ least_below (λ n. is_walk_by steps.now.hops n from j) bound) }
{
    let mut levels = Marks::new(alloc, steps.len())?;
    levels.mark(from, 0);
    let mut front = vec![in alloc; from as u32]?;
    let mut next = Vec::new(alloc);
    for level in 1..bound {
        next.clear();
        next_front(steps, &front, level, &mut levels, &mut next)?;
        mem::swap(&mut front, &mut next);
    }
    Ok(levels)
}

/// Marks the places without a mark to which steps from the front lead, and puts them behind those that come next.
pub(crate) fn next_front(
    steps: &FlatSteps,
    front: &[u32],
    mark: u32,
    marks: &mut Marks,
    next: &mut Vec<u32>,
) -> Result<(), NoMemory>
    requires mark { mark < 4294967295 }
    requires len { length marks.old ≡ length steps.now.ids }
    ensures len { length marks.new ≡ length marks.old }
    ensures marks { OnOk result ((j : ℕ) → mark_at marks.new j
        ≡ option_or (mark_at marks.old j) (if list_any (λ v. leads steps.now.hops v j) front.now then Some mark else None)) }
    ensures next { OnOk result ((j : ℕ) → has next.new.items j
        ≡ (has next.old.items j || (is_none (mark_at marks.old j) && list_any (λ v. leads steps.now.hops v j) front.now))) }
{
    for v in front {
        mark_from(steps, *v as usize, mark, marks, next)?;
    }
    Ok(())
}

// Marks the places without a mark to which steps from a place lead, and puts them behind others.
fn mark_from(
    steps: &FlatSteps,
    from: usize,
    mark: u32,
    marks: &mut Marks,
    next: &mut Vec<u32>,
) -> Result<(), NoMemory>
    requires mark { mark < 4294967295 }
    requires len { length marks.old ≡ length steps.now.ids }
    ensures len { length marks.new ≡ length marks.old }
    ensures marks { OnOk result ((j : ℕ) → mark_at marks.new j
        ≡ option_or (mark_at marks.old j) (if leads steps.now.hops from j then Some mark else None)) }
    ensures next { OnOk result ((j : ℕ) → has next.new.items j
        ≡ (has next.old.items j || (is_none (mark_at marks.old j) && leads steps.now.hops from j))) }
{
    mark_each(steps.row(from), mark, marks, next)
}

// Marks those of some places that have no mark, and puts them behind others.
fn mark_each(
    places: &[u32],
    mark: u32,
    marks: &mut Marks,
    next: &mut Vec<u32>,
) -> Result<(), NoMemory>
    requires mark { mark < 4294967295 }
    requires within { (j : ℕ) → IsTrue (has places.now j) → j < length marks.old }
    ensures len { length marks.new ≡ length marks.old }
    ensures marks { OnOk result ((j : ℕ) → mark_at marks.new j
        ≡ option_or (mark_at marks.old j) (if has places.now j then Some mark else None)) }
    ensures next { OnOk result ((j : ℕ) → has next.new.items j
        ≡ (has next.old.items j || (is_none (mark_at marks.old j) && has places.now j))) }
{
    for place in places {
        mark_one(*place, mark, marks, next)?;
    }
    Ok(())
}

// Marks a place that has no mark, and puts it behind others.
fn mark_one(place: u32, mark: u32, marks: &mut Marks, next: &mut Vec<u32>) -> Result<(), NoMemory>
    requires place { place < length marks.old }
    requires mark { mark < 4294967295 }
    ensures len { length marks.new ≡ length marks.old }
    ensures marks { OnOk result ((j : ℕ) → mark_at marks.new j
        ≡ option_or (mark_at marks.old j) (if place == j then Some mark else None)) }
    ensures next { OnOk result ((j : ℕ) → has next.new.items j
        ≡ (has next.old.items j || (is_none (mark_at marks.old j) && (place == j)))) }
{
    if marks.mark(place as usize, mark) {
        next.push(place)?;
    }
    Ok(())
}
