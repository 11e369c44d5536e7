ghost use Rattle.std.specs.Prelude.{MatchResult};
ghost use Rattle.plain_run.specs.Given.{given};
ghost use Rattle.plain_run.specs.Loading.{IsReady};
ghost use Rattle.plain_run.specs.Running.{AreTexts, TellsBadText};

use crate::load_reader::read_load;
use crate::ready_load::ReadyLoad;
use crate::ready_workload::ReadyWorkload;
use crate::{RunRefused, Texts, Workload};
use rma_layout::Geometry;
use script_text::{ScriptRefused, read_script};
use std::alloc::Global;

/// The load and the script that texts are, and the graph behind the load where `read_load` hands it on.
///
/// `BadLoad` and `BadScript` tell their first fault, where those of the load files come before those of the script. The one
/// other refusal is `NoMemory`.
pub fn read_workload(
    alloc: Global,
    geometry: Geometry,
    texts: &Texts,
) -> Result<ReadyWorkload, RunRefused>
    ensures { MatchResult result (λ ready. AreTexts geometry (given texts.now) ready.workload × IsReady geometry ready.workload.load ready.graph) (TellsBadText geometry (given texts.now)) }
{
    let ReadyLoad { load, graph } = read_load(alloc, geometry, texts.vertices, texts.edges)?;
    match read_script(alloc, texts.script) {
        Ok(script) => Ok(ReadyWorkload {
            workload: Workload { load, script },
            graph,
        }),
        Err(ScriptRefused::Bad { line, kind }) => Err(RunRefused::BadScript { line, kind }),
        Err(ScriptRefused::NoMemory) => Err(RunRefused::NoMemory),
    }
}
