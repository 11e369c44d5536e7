ghost use Rattle.std.specs.Prelude.{◌≡◌, ℕ, ◌+◌, ◌<◌, ◌≤◌, ◌++◌, ◌∷◌, ◌^◌, Some, [], map, length, slice_index, nat_lt, count_by, IfOk, OnOk, IsSome, if◌then◌else◌};
ghost use Rattle.std.specs.List.{filter, filter_map, range_with_len};
ghost use Rattle.std.specs.Option.{option_to_list};
ghost use Rattle.graph_walks.specs.Flat.{AreMarkedWithin};
ghost use Rattle.graph_walks.specs.Marks.{mark_at};
ghost use Rattle.graph_walks.specs.Reached.{AreNames, is_this, is_within, level_by, pair_if, parts_by};
ghost use Rattle.graph_walks.specs.Steps.{IsTwoWay, steps_of};

use crate::FlatSteps;
use crate::levels::levels_from;
use crate::marks::Marks;
use crate::spreading::components;
use gdi_kinds::{NoMemory, NumList, Pair, PairList};
use std::alloc::Global;

/// Each vertex that walks from one reach, with its level: the least number of steps.
pub fn levels_of(alloc: Global, steps: &FlatSteps, from: u64) -> Result<PairList, NoMemory>
    ensures { IfOk result (λ pairs. pairs
        ≡ filter_map (λ j. pair_if j (level_by (steps_of steps.now) (length steps.now.ids) from j)) steps.now.ids) }
{
    let count = steps.len();
    if count == 0 {
        return Ok(PairList::new(alloc));
    }
    let levels = levels_from(alloc, steps, from, count as u32)?;
    let pairs = pairs_of(alloc, steps.places().ids(), &levels)?;
    Ok(pairs)
}

/// The vertices of level at most `depth` from one.
pub fn hood_of(alloc: Global, steps: &FlatSteps, from: u64, depth: u64) -> Result<NumList, NoMemory>
    ensures { IfOk result (λ hood. hood
        ≡ filter (λ j. is_within depth (level_by (steps_of steps.now) (length steps.now.ids) from j)) steps.now.ids) }
{
    let count = steps.len();
    if count == 0 {
        return Ok(NumList::new(alloc));
    }
    let levels = levels_from(alloc, steps, from, bound_of(depth, count as u32))?;
    let hood = those_within(alloc, steps.places().ids(), &levels, depth)?;
    Ok(hood)
}

/// The least vertex of each component, with how many vertices it has. Each step may be taken back.
pub fn parts_of(alloc: Global, steps: &FlatSteps) -> Result<PairList, NoMemory>
    requires { IsTwoWay (steps_of steps.now) }
    ensures { IfOk result (λ parts. (name : ℕ → ℕ) → AreNames (steps_of steps.now) steps.now.ids name → parts ≡ parts_by name steps.now.ids) }
{
    let _count = steps.len();
    let names = components(alloc, steps)?;
    let sizes = sizes_of(alloc, &names)?;
    let parts = own_of(alloc, steps.places().ids(), &names, sizes.as_slice())?;
    Ok(parts)
}

// How many levels there may be, up to a depth, where there are so many vertices.
fn bound_of(depth: u64, count: u32) -> u32
    ensures { result ≡ (if nat_lt depth count then depth + 1 else count) }
{
    if depth < count as u64 {
        depth as u32 + 1
    } else {
        count
    }
}

// The vertices with their marks.
fn pairs_of(alloc: Global, ids: &[u64], marks: &Marks) -> Result<PairList, NoMemory>
    requires { length marks.now ≡ length ids.now }
    ensures { IfOk result (λ pairs. pairs
        ≡ filter_map (λ p. pair_if (slice_index ids.now p) (mark_at marks.now p)) (range_with_len 0 (length ids.now))) }
{
    let mut pairs = PairList::new(alloc);
    for place in 0..ids.len() {
        push_pair(&mut pairs, ids[place], marks.get(place))?;
    }
    Ok(pairs)
}

fn push_pair(pairs: &mut PairList, id: u64, mark: Option<u32>) -> Result<(), NoMemory>
    ensures { OnOk result (pairs.new ≡ pairs.old ++ option_to_list (pair_if id mark)) }
{
    match mark {
        Some(mark) => pairs.push(Pair {
            id,
            number: mark as u64,
        }),
        None => Ok(()),
    }
}

// The vertices whose marks are at most this.
fn those_within(alloc: Global, ids: &[u64], marks: &Marks, most: u64) -> Result<NumList, NoMemory>
    requires { length marks.now ≡ length ids.now }
    ensures { IfOk result (λ found. found
        ≡ map (slice_index ids.now) (filter (λ p. is_within most (mark_at marks.now p)) (range_with_len 0 (length ids.now)))) }
{
    let mut found = NumList::new(alloc);
    for place in 0..ids.len() {
        push_if(&mut found, ids[place], has_within(marks.get(place), most))?;
    }
    Ok(found)
}

fn has_within(mark: Option<u32>, most: u64) -> bool
    ensures { result ≡ is_within most mark }
{
    match mark {
        Some(mark) => mark as u64 <= most,
        None => false,
    }
}

fn push_if(found: &mut NumList, id: u64, passes: bool) -> Result<(), NoMemory>
    ensures { OnOk result (found.new ≡ found.old ++ (if passes then id ∷ [] else [])) }
{
    if !passes {
        return Ok(());
    }
    found.push(id)
}

// The vertices whose places are marked with themselves, each with its number.
fn own_of(alloc: Global, ids: &[u64], marks: &Marks, numbers: &[u64]) -> Result<PairList, NoMemory>
    requires marks { length marks.now ≡ length ids.now }
    requires numbers { length numbers.now ≡ length ids.now }
    ensures { IfOk result (λ pairs. pairs
        ≡ map (λ p. record { id = slice_index ids.now p; number = slice_index numbers.now p })
        (filter (λ p. is_this p (mark_at marks.now p)) (range_with_len 0 (length ids.now)))) }
{
    let mut pairs = PairList::new(alloc);
    for place in 0..ids.len() {
        let pair = Pair {
            id: ids[place],
            number: numbers[place],
        };
        push_pair_if(&mut pairs, pair, is_own(marks.get(place), place))?;
    }
    Ok(pairs)
}

fn push_pair_if(pairs: &mut PairList, pair: Pair, passes: bool) -> Result<(), NoMemory>
    ensures { OnOk result (pairs.new ≡ pairs.old ++ (if passes then pair ∷ [] else [])) }
{
    if !passes {
        return Ok(());
    }
    pairs.push(pair)
}

fn is_own(mark: Option<u32>, place: usize) -> bool
    ensures { result ≡ is_this place mark }
{
    match mark {
        Some(mark) => mark as usize == place,
        None => false,
    }
}

// How many places are marked with each.
fn sizes_of(alloc: Global, marks: &Marks) -> Result<Vec<u64>, NoMemory>
    requires { AreMarkedWithin (length marks.now) marks.now }
    ensures len { IfOk result (λ sizes. length sizes.items ≡ length marks.now) }
    ensures each { IfOk result (λ sizes. (p : ℕ) → p < length marks.now
        → slice_index sizes.items p ≡ count_by (λ q. is_this p (mark_at marks.now q)) (range_with_len 0 (length marks.now))) }
{
    let count = marks.len();
    let mut sizes = vec![in alloc; 0u64; count]?;
    for place in 0..count {
        raise(&mut sizes, marks.get(place));
    }
    Ok(sizes)
}

// Counts a place once more.
fn raise(sizes: &mut Vec<u64>, mark: Option<u32>)
    requires within { (q : ℕ) → mark ≡ Some q → q < length sizes.old.items }
    requires few { (q : ℕ) → q < length sizes.old.items → slice_index sizes.old.items q + 1 < 2 ^ 64 }
    ensures len { length sizes.new.items ≡ length sizes.old.items }
    ensures each { (p : ℕ) → slice_index sizes.new.items p ≡ slice_index sizes.old.items p + (if is_this p mark then 1 else 0) }
{
    if let Some(place) = mark {
        sizes[place as usize] += 1;
    }
}
