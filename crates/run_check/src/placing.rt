ghost use Rattle.std.specs.Prelude.{ℕ, IfOk, MatchOption};
ghost use Rattle.graph_model.specs.Graph.{Graph};
ghost use Rattle.rma_layout.specs.Shape.{Shape};
ghost use Rattle.run_check.specs.Clauses.{FailsFirst, IsPlaced};

use crate::{Clause, Illegal, first_misfit, first_misnumbered, first_out_of_order};
use gdi_kinds::{NoMemory, Printed, Script};
use std::alloc::Global;

/// The least of the clauses that ask for no graph that a run doesn't keep, and the first outcome that fails in it: each
/// transaction has its outcome, entries are numbered behind the load's so many, and each section keeps its order.
pub fn first_misplaced(
    alloc: Global,
    load: u64,
    script: &Script,
    run: &Printed,
) -> Result<Option<Illegal>, NoMemory>
    ensures { IfOk result (λ first. MatchOption first (IsPlaced load script.now run.now) (λ illegal. (shape : Shape) (graph : ℕ → Graph) → FailsFirst shape graph load script.now run.now illegal.clause illegal.place)) }
{
    let lines = run.lines.as_slice();
    if let Some(place) = first_misfit(script, lines) {
        return Ok(Some(Illegal {
            clause: Clause::Fit,
            place,
        }));
    }
    if let Some(place) = first_misnumbered(alloc, load, run)? {
        return Ok(Some(Illegal {
            clause: Clause::Numbers,
            place,
        }));
    }
    let early = first_out_of_order(lines);
    Ok(early.map(|place| Illegal {
        clause: Clause::Order,
        place,
    }))
}
