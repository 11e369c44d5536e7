ghost use Rattle.std.specs.Prelude.{MatchResult};
ghost use Rattle.plain_run.specs.Given.{given};
ghost use Rattle.plain_check.specs.Checking.{IsVerdict};
ghost use Rattle.plain_check.specs.Refusals.{IsUnchecked};

use crate::CheckRefused;
use outcome_text::read_outcomes;
use plain_run::{Loaded, ReadyWorkload, Texts, finish_load, read_workload};
use rma_layout::Geometry;
use run_check::{Illegal, illegal_ones_are_not};
use run_replay::first_illegal;
use std::alloc::Global;

/// Whether an output is legal for the load and the script that texts are: `None` where it is one that a run of them may
/// print, or the least clause that its run doesn't keep, with the first outcome that fails in it.
///
/// Each refusal is told by its cause, the first in the order that `CheckRefused` names.
pub fn check_texts(
    alloc: Global,
    geometry: Geometry,
    texts: &Texts,
    output: &[u8],
) -> Result<Option<Illegal>, CheckRefused>
    ensures { MatchResult result (IsVerdict geometry (given texts.now) output.now) (IsUnchecked geometry (given texts.now) output.now) }
{
    let ReadyWorkload { workload, graph } = read_workload(alloc, geometry, texts)?;
    let run = read_outcomes(alloc, output)?;
    let Loaded { graph, entries } = finish_load(alloc, geometry, &workload.load, graph)?;
    illegal_ones_are_not();
    Ok(first_illegal(alloc, graph, entries, &workload.script, &run)?)
}
