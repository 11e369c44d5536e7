ghost use Rattle.std.specs.Prelude.{◌≡◌, ◌++◌, ◌∷◌, [], IfOk, List, ℕ, OnOk};
ghost use Rattle.graph_model.specs.Placed.{Placed, placed_from, transactions_of};
ghost use Rattle.run_replay.specs.Visits.{AreInOrder, AreVisits, GoesOn};

use crate::visit::{Visit, visit_key};
use gdi_kinds::{Line, NoMemory, Script, Section, Txn};
use std::alloc::Global;

// The transactions of a script with their lines, in the order of the history.
pub(crate) fn sorted_visits<'a>(
    alloc: Global,
    script: &'a Script,
    lines: &'a [Line],
) -> Result<Vec<Visit<'a>>, NoMemory>
    ensures { IfOk result (λ visits. AreInOrder (transactions_of script.now) lines.now visits.items) }
{
    let mut visits = all_visits(alloc, script, lines)?;
    visits.sort_by_key(|visit| visit_key(&visit.line.outcome))?;
    Ok(visits)
}

fn all_visits<'a>(
    alloc: Global,
    script: &'a Script,
    lines: &'a [Line],
) -> Result<Vec<Visit<'a>>, NoMemory>
    ensures { IfOk result (λ visits. AreVisits 0 (transactions_of script.now) lines.now visits.items) }
{
    let mut visits = Vec::new(alloc);
    for section in script.as_slice() {
        visit_section(&mut visits, section, lines)?;
    }
    Ok(visits)
}

fn visit_section<'a>(
    visits: &mut Vec<Visit<'a>>,
    section: &'a Section,
    lines: &'a [Line],
) -> Result<(), NoMemory>
    ensures { OnOk result ((all more : List Placed) (number : ℕ) → GoesOn all lines.now visits.old.items (placed_from number 1 section.now ++ more) → GoesOn all lines.now visits.new.items more) }
{
    for txn in section.as_slice() {
        visit_txn(visits, txn, lines)?;
    }
    Ok(())
}

fn visit_txn<'a>(
    visits: &mut Vec<Visit<'a>>,
    txn: &'a Txn,
    lines: &'a [Line],
) -> Result<(), NoMemory>
    ensures { OnOk result ((all more : List Placed) (placed : Placed) → placed.txn ≡ txn.now → GoesOn all lines.now visits.old.items (placed ∷ more) → GoesOn all lines.now visits.new.items more) }
{
    let index = visits.len();
    if let Some(line) = lines.get(index) {
        visits.push(Visit { index, txn, line })?;
    }
    Ok(())
}
