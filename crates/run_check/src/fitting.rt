ghost use Rattle.std.specs.Prelude.{◌∷◌, ◌↔◌, [], IsTrue, MatchOption, MatchResult};
ghost use Rattle.graph_model.specs.Placed.{Placed, placed_from, transactions_of};
ghost use Rattle.graph_model.specs.LegalRun.{FitsScript, MayEnd};
ghost use Rattle.run_check.specs.Fitting.{FirstMisfit, Fits, GoesOn, Stops};

use crate::Place;
use gdi_kinds::{Line, Outcome, Script, Section, Txn};

/// The first line that doesn't stand for the next transaction of the script: its section and number are others, it ends as
/// the transaction can't, or has another number of replies. A line that is lacking comes behind all others. It takes no
/// memory.
pub fn first_misfit(script: &Script, lines: &[Line]) -> Option<Place>
    ensures { MatchOption result (FitsScript (transactions_of script.now) lines.now) (FirstMisfit (transactions_of script.now) lines.now) }
{
    let mut rest = lines;
    for (index, section) in script.as_slice().iter().enumerate() {
        match behind_section(index as u64 + 1, section, rest) {
            Ok(others) => rest = others,
            Err(place) => return Some(place),
        }
    }
    rest.first().map(Place::of)
}

// The lines behind those of a section.
fn behind_section<'a>(
    number: u64,
    section: &Section,
    lines: &'a [Line],
) -> Result<&'a [Line], Place>
    ensures { MatchResult result (λ others. GoesOn (placed_from number 1 section.now) lines.now others.now) (Stops (placed_from number 1 section.now) lines.now) }
{
    let mut rest = lines;
    for (index, txn) in section.as_slice().iter().enumerate() {
        match behind_line(number, index as u64 + 1, txn, rest) {
            Ok(others) => rest = others,
            Err(place) => return Err(place),
        }
    }
    Ok(rest)
}

// The lines behind that of a transaction.
fn behind_line<'a>(
    section: u64,
    number: u64,
    txn: &Txn,
    lines: &'a [Line],
) -> Result<&'a [Line], Place>
    ensures { let placed : Placed = record { section = section; number = number; txn = txn.now } in MatchResult result (λ others. GoesOn (placed ∷ []) lines.now others.now) (Stops (placed ∷ []) lines.now) }
{
    match lines {
        [] => Err(Place {
            section,
            txn: number,
        }),
        [line, others @ ..] => {
            if fits(section, number, txn, line) {
                Ok(others)
            } else {
                Err(Place::of(line))
            }
        }
    }
}

fn fits(section: u64, number: u64, txn: &Txn, line: &Line) -> bool
    ensures { IsTrue result ↔ Fits (record { section = section; number = number; txn = txn.now }) line.now }
{
    line.section == section && line.txn == number && may_end(txn, &line.outcome)
}

fn may_end(txn: &Txn, outcome: &Outcome) -> bool
    ensures { IsTrue result ↔ MayEnd txn.now outcome.now }
{
    match outcome {
        Outcome::Aborted => txn.aborts,
        Outcome::Wrote { replies, .. } => {
            !txn.aborts && txn.is_writing() && replies.len() == txn.calls.len()
        }
        Outcome::Read { replies, .. } => {
            !txn.aborts && !txn.is_writing() && replies.len() == txn.calls.len()
        }
        Outcome::Full { .. } => !txn.aborts && txn.is_writing(),
    }
}
