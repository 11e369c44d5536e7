ghost use Rattle.std.specs.Prelude.{◌≡◌, ◌++◌, ◌∷◌, [], List, ℕ, false, true, not, IfOk, MatchOption};
ghost use Rattle.std.specs.Option.{option_to_list};
ghost use Rattle.graph_model.specs.Placed.{entry_number};
ghost use Rattle.graph_model.specs.LegalRun.{IsNumbered};
ghost use Rattle.run_check.specs.Numbering.{FirstMisnumbered, HasSeen, is_among, is_misnumbered, is_outside};

use crate::Place;
use gdi_kinds::{NoMemory, Outcome, Printed};
use std::alloc::Global;
use std::collections::BTreeSet;

/// The first outcome whose number or place can't be, behind the load's so many entries: the number of an entry that isn't
/// among those behind the load's, or stands before; or a reading place among the load's entries, or behind the last. Where no
/// outcome fails so, but they aren't as many entries as the run says, the place is two zeros.
pub fn first_misnumbered(alloc: Global, load: u64, run: &Printed) -> Result<Option<Place>, NoMemory>
    ensures { IfOk result (λ first. MatchOption first (IsNumbered load run.now) (FirstMisnumbered load run.now)) }
{
    let mut seen = BTreeSet::new(alloc);
    for line in run.lines.as_slice() {
        if is_misnumbered(&mut seen, load, run.writes, &line.outcome)? {
            return Ok(Some(Place::of(line)));
        }
    }
    if run.writes >= load && run.writes - load == seen.len() as u64 {
        Ok(None)
    } else {
        Ok(Some(Place { section: 0, txn: 0 }))
    }
}

// Whether an outcome's number or place can't be; if it can, its number is among those seen.
fn is_misnumbered(
    seen: &mut BTreeSet<u64, Global>,
    load: u64,
    writes: u64,
    outcome: &Outcome,
) -> Result<bool, NoMemory>
    ensures answer { (earlier : List ℕ) → HasSeen seen.old.keys earlier → IfOk result (λ wrong. wrong ≡ is_misnumbered load writes earlier outcome.now) }
    ensures seen { (earlier : List ℕ) → HasSeen seen.old.keys earlier → IfOk result (λ wrong. wrong ≡ false → HasSeen seen.new.keys (earlier ++ option_to_list (entry_number outcome.now))) }
{
    match outcome {
        Outcome::Wrote { k, .. } => Ok(*k < load || *k >= writes || !see(seen, *k)?),
        Outcome::Read { place, .. } => Ok(is_outside(load, writes, *place)),
        Outcome::Full { place, .. } => Ok(is_outside(load, writes, *place)),
        Outcome::Aborted => Ok(false),
    }
}

// Puts a number among those seen, and says whether it is new.
fn see(seen: &mut BTreeSet<u64, Global>, k: u64) -> Result<bool, NoMemory>
    ensures answer { (earlier : List ℕ) → HasSeen seen.old.keys earlier → IfOk result (λ new. new ≡ not (is_among earlier k)) }
    ensures seen { (earlier : List ℕ) → HasSeen seen.old.keys earlier → IfOk result (λ new. new ≡ true → HasSeen seen.new.keys (earlier ++ k ∷ [])) }
{
    Ok(seen.insert(k)?)
}

fn is_outside(load: u64, writes: u64, place: u64) -> bool
    ensures { result ≡ is_outside load writes place }
{
    place < load || writes < place
}
