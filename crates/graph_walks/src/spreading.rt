ghost use Rattle.std.specs.Prelude.{◌≡◌, ℕ, ◌+◌, ◌<◌, true, length, slice_index, IfOk, OnOk, IsSomeAnd};
ghost use Rattle.std.specs.List.{range_with_len};
ghost use Rattle.graph_walks.specs.Marks.{mark_at};
ghost use Rattle.graph_walks.specs.Naming.{IsNaming};
ghost use Rattle.graph_walks.specs.Steps.{IsLeastJoined, IsTwoWay, steps_of};

use crate::FlatSteps;
use crate::levels::next_front;
use crate::marks::Marks;
use gdi_kinds::NoMemory;
use std::alloc::Global;
use std::mem;

/// Marks each place with the place of the least one that a walk joins with it. Each step may be taken back.
pub(crate) fn components(alloc: Global, steps: &FlatSteps) -> Result<Marks, NoMemory>
    requires { IsTwoWay steps.now.hops }
    ensures len { IfOk result (λ names. length names ≡ length steps.now.ids) }
    ensures names { IfOk result (λ names. (j : ℕ) → j < length steps.now.ids → IsSomeAnd (mark_at names j) (IsLeastJoined steps.now.hops j)) }
{
    let count = steps.len();
    let mut names = Marks::new(alloc, count)?;
    for place in 0..count {
        spread(alloc, steps, place, &mut names)?;
    }
    Ok(names)
}

// Gives the component of a place its name, if it has none yet.
fn spread(alloc: Global, steps: &FlatSteps, place: usize, names: &mut Marks) -> Result<(), NoMemory>
    requires place { place < length steps.now.ids }
    requires len { length names.old ≡ length steps.now.ids }
    requires two_way { IsTwoWay steps.now.hops }
    requires so_far { IsNaming steps.now.hops (range_with_len 0 (length steps.now.ids)) place (mark_at names.old) }
    ensures len { length names.new ≡ length names.old }
    ensures more { OnOk result (IsNaming steps.now.hops (range_with_len 0 (length steps.now.ids)) (place + 1) (mark_at names.new)) }
{
    let _count = steps.len();
    let least = place as u32;
    if !names.mark(place, least) {
        return Ok(());
    }
    let mut front = vec![in alloc; least]?;
    let mut next = Vec::new(alloc);
    while front.len() > 0 {
        next.clear();
        next_front(steps, &front, least, names, &mut next)?;
        mem::swap(&mut front, &mut next);
    }
    Ok(())
}
