ghost use Rattle.std.specs.Prelude.{List, IfOk};
ghost use Rattle.gdi_kinds.specs.declared.txn.Txn.{Txn};
ghost use Rattle.graph_model.specs.Placed.{transactions_of};
ghost use Rattle.graph_model.specs.LegalRun.{FitsScript, IsNumbered, graph_of_run};
ghost use Rattle.run_replay.specs.Judging.{IsBehindLoad, IsUnlike};

use crate::Unlike;
use crate::sight::look;
use crate::visit::{earlier, place_told};
use crate::visits::sorted_visits;
use gdi_kinds::{NoMemory, Printed, Script};
use plain_graph::PlainGraph;
use std::alloc::Global;

/// Follows the history that a run tells of, entry after entry, on the graph behind the load's so many entries. It costs what
/// running the transactions once costs, and a sort; no graph is copied.
pub fn replay(
    alloc: Global,
    graph: PlainGraph,
    entries: u64,
    script: &Script,
    run: &Printed,
) -> Result<Unlike, NoMemory>
    requires fits { FitsScript (transactions_of script.now) run.now.lines }
    requires numbered { IsNumbered entries run.now }
    ensures { IfOk result (λ unlike. (load : List Txn) → IsBehindLoad graph entries load → IsUnlike graph.shape (graph_of_run graph.shape load script.now run.now) script.now run.now unlike) }
{
    let visits = sorted_visits(alloc, script, run.lines.as_slice())?;
    let mut graph = graph;
    let mut replies = None;
    let mut room = None;
    for visit in visits.as_slice() {
        let sight = look(&mut graph, visit.txn, &visit.line.outcome)?;
        replies = earlier(replies, sight.replies, *visit);
        room = earlier(room, sight.room, *visit);
    }
    Ok(Unlike {
        replies: place_told(replies),
        room: place_told(room),
    })
}
