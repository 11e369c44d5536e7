ghost use Rattle.std.specs.Prelude.{IfOk, MatchResult};
ghost use Rattle.plain_run.specs.Given.{given};
ghost use Rattle.plain_run.specs.Running.{PrintsLegalRun, TellsWhy};

use crate::loaded::{Loaded, finish_load};
use crate::workload_reader::read_workload;
use crate::{ReadyWorkload, RunRefused, Texts};
use gdi_kinds::Bytes;
use outcome_text::print_outcomes;
use rma_layout::Geometry;
use serial_run::run_script;
use std::alloc::Global;

/// Loads, runs the script's transactions one after the other, and answers what that prints.
///
/// Each refusal is told by its cause, the first in the order that `RunRefused` names.
pub fn run_texts(alloc: Global, geometry: Geometry, texts: &Texts) -> Result<Bytes, RunRefused>
    ensures { MatchResult result (PrintsLegalRun geometry (given texts.now)) (TellsWhy geometry (given texts.now)) }
{
    let ReadyWorkload { workload, graph } = read_workload(alloc, geometry, texts)?;
    let Loaded { graph, entries } = finish_load(alloc, geometry, &workload.load, graph)?;
    let run = run_script(alloc, graph, entries, &workload.script)?;
    Ok(print_outcomes(alloc, &run.printed)?)
}
