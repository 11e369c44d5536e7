ghost use Rattle.std.specs.Prelude.{◌≡◌, ℕ, ◌<◌, ◌^◌, true, false, Some, length, slice_get, IfOk, MatchOption};
ghost use Rattle.graph_model.specs.Maps.{has, IsSet};
ghost use Rattle.graph_walks.specs.Flat.{AreConsecutive, ArePlaces};

use gdi_kinds::{NoMemory, NumList};
use std::alloc::Global;
use std::marker::Model;

// How far from its guess a place is looked for, before all places are halved.
const NEAR: usize = 4;

/// Vertices by place, from 0: fewer than 2^32 identifiers, rising. Contracts see the list of the identifiers.
#[derive(Debug, Drop)]
pub struct Places {
    ids: Vec<u64>,
    // Where to look for an identifier first: the places from which on those may stand that are as far above the first one,
    // up to the lowest `shift` bits.
    guesses: Vec<u32>,
    shift: u32,
    // Whether each identifier is the next after the one before: then a place needs no look.
    consecutive: bool,
}

impl Model for Places {
    ghost use Rattle.std.specs.Prelude.{ℕ, List};

    ghost Value = { List ℕ };

    ghost use Rattle.std.specs.Prelude.{◌≡◌, true};
    ghost use Rattle.graph_walks.specs.Flat.{AreConsecutive, ArePlaces};

    ghost view = { λ places. places.ids.items };

    ghost invariant = { λ places. ArePlaces places.ids.items × (places.consecutive ≡ true → AreConsecutive places.ids.items) };
}

impl Places {
    /// The places of these vertices, whose identifiers rise. More than 2^32 - 1 are too many for the memory that is kept.
    pub fn new(alloc: Global, ids: NumList) -> Result<Places, NoMemory>
        requires { IsSet ids }
        ensures { IfOk result (λ places. places ≡ ids) }
    {
        if ids.len() >= 4294967296 {
            return Err(NoMemory);
        }
        let shift = shift_of(ids.as_slice());
        let guesses = guesses_of(alloc, ids.as_slice(), shift)?;
        let consecutive = are_consecutive(ids.as_slice());
        Ok(Places {
            ids: ids.into_vec(),
            guesses,
            shift,
            consecutive,
        })
    }

    /// How many vertices there are.
    #[inline]
    pub fn len(&self) -> usize
        ensures value { result ≡ length self.now }
        ensures places { ArePlaces self.now }
    {
        self.ids.len()
    }

    /// The identifiers.
    pub fn ids(&self) -> &[u64]
        ensures { result.now ≡ self.now }
    {
        self.ids.as_slice()
    }

    /// The place of a vertex, if it is there.
    #[inline]
    pub fn place(&self, id: u64) -> Option<usize>
        ensures { MatchOption result (has self.now id ≡ false) (λ place. slice_get self.now place ≡ Some id) }
    {
        if self.consecutive {
            return counted(self.ids.as_slice(), id);
        }
        if let Some(place) = near(self.ids.as_slice(), id, self.guess(id)) {
            return Some(place);
        }
        halved(self.ids.as_slice(), id)
    }

    fn guess(&self, id: u64) -> usize {
        let bucket = bucket_of(self.ids.as_slice(), self.shift, id);
        match self.guesses.get(bucket) {
            Some(guess) => *guess as usize,
            None => 0,
        }
    }
}

// Whether each of some rising identifiers is the next after the one before.
fn are_consecutive(ids: &[u64]) -> bool
    requires { IsSet ids.now }
    ensures { result ≡ true → AreConsecutive ids.now }
{
    if ids.len() == 0 {
        return false;
    }
    let last = ids.len() - 1;
    ids[last].saturating_sub(ids[0]) == last as u64
}

// The place of an identifier among such.
#[inline(always)]
fn counted(ids: &[u64], id: u64) -> Option<usize>
    requires { AreConsecutive ids.now }
    ensures { MatchOption result (has ids.now id ≡ false) (λ place. slice_get ids.now place ≡ Some id) }
{
    if ids.len() == 0 {
        return None;
    }
    let first = ids[0];
    if id < first {
        return None;
    }
    if id - first >= ids.len() as u64 {
        return None;
    }
    Some((id - first) as usize)
}

// The place of an identifier, if it stands close behind a guess.
fn near(ids: &[u64], id: u64, guess: usize) -> Option<usize>
    ensures { MatchOption result (Unit {0}) (λ place. slice_get ids.now place ≡ Some id) }
{
    for place in guess..guess.saturating_add(NEAR) {
        if ids.get(place).copied() == Some(id) {
            return Some(place);
        }
    }
    None
}

// The place of an identifier among rising ones.
fn halved(ids: &[u64], id: u64) -> Option<usize>
    requires { ArePlaces ids.now }
    ensures { MatchOption result (has ids.now id ≡ false) (λ place. slice_get ids.now place ≡ Some id) }
{
    let mut low = 0;
    let mut high = ids.len();
    while low < high {
        let middle = low + (high - low) / 2;
        if ids[middle] < id {
            low = middle + 1;
        } else {
            high = middle;
        }
    }
    if low == ids.len() {
        return None;
    }
    if ids[low] != id {
        return None;
    }
    Some(low)
}

// How many of the lowest bits to leave out, so that about as many numbers are left as there are identifiers.
fn shift_of(ids: &[u64]) -> u32 {
    let span = match (ids.first(), ids.last()) {
        (Some(first), Some(last)) => last.saturating_sub(*first),
        _ => 0,
    };
    let count = ids.len() as u64;
    count.leading_zeros().saturating_sub(span.leading_zeros())
}

// Which guess is that of an identifier.
fn bucket_of(ids: &[u64], shift: u32, id: u64) -> usize {
    let first = match ids.first() {
        Some(first) => *first,
        None => 0,
    };
    match id.saturating_sub(first).checked_shr(shift) {
        Some(bucket) => bucket as usize,
        None => 0,
    }
}

fn guesses_of(alloc: Global, ids: &[u64], shift: u32) -> Result<Vec<u32>, NoMemory>
    requires { length ids.now < 2 ^ 32 }
{
    let count = match ids.last() {
        Some(last) => bucket_of(ids, shift, *last),
        None => 0,
    };
    let mut guesses = vec![in alloc; 0u32; count.saturating_add(1)]?;
    for k in 0..ids.len() {
        let place = ids.len() - 1 - k;
        if let Some(guess) = guesses.get_mut(bucket_of(ids, shift, ids[place])) {
            *guess = place as u32;
        }
    }
    Ok(guesses)
}
