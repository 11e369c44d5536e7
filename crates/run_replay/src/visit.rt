ghost use Rattle.std.specs.Prelude.{◌≡◌};
ghost use Rattle.run_check.specs.Places.{place_of};
ghost use Rattle.run_replay.specs.Visits.{earlier, place_told, visit_key};

use gdi_kinds::{Line, Outcome, Txn};
use run_check::Place;

// A transaction with its outcome, and the place of that in the output.
#[derive(Clone, Copy)]
pub(crate) struct Visit<'a> {
    pub(crate) index: usize,
    pub(crate) txn: &'a Txn,
    pub(crate) line: &'a Line,
}

impl<'a> Visit<'a> {
    pub(crate) fn place(&self) -> Place
        ensures { result ≡ place_of self.now.line.now }
    {
        Place {
            section: self.line.section,
            txn: self.line.txn,
        }
    }
}

// Where an outcome comes in the history: those that looked at a graph come before the entry that changed it.
pub(crate) fn visit_key(outcome: &Outcome) -> u128
    ensures { result ≡ visit_key outcome.now }
{
    match outcome {
        Outcome::Wrote { k, .. } => u128::from(*k) * 2 + 1,
        Outcome::Read { place, .. } => u128::from(*place) * 2,
        Outcome::Full { place, .. } => u128::from(*place) * 2,
        Outcome::Aborted => 0,
    }
}

// The first in the output of those that aren't right, with one more.
pub(crate) fn earlier<'a>(
    first: Option<Visit<'a>>,
    right: bool,
    visit: Visit<'a>,
) -> Option<Visit<'a>>
    ensures { result ≡ earlier first.entry right visit.entry }
{
    if right {
        return first;
    }
    match first {
        Some(other) if other.index < visit.index => Some(other),
        _ => Some(visit),
    }
}

// The place that such a visit prints.
pub(crate) fn place_told(first: Option<Visit<'_>>) -> Option<Place>
    ensures { result ≡ place_told first.entry }
{
    first.map(|visit| visit.place())
}
