ghost use Rattle.std.specs.Prelude.{◌≡◌, List, IfOk, MatchOption};
ghost use Rattle.gdi_kinds.specs.declared.txn.Txn.{Txn};
ghost use Rattle.graph_model.specs.Graph.{empty_graph};
ghost use Rattle.graph_model.specs.History.{load_entries};
ghost use Rattle.graph_model.specs.LegalRun.{IsLegalRun, graph_of_run};
ghost use Rattle.serial_run.specs.Serial.{HaveRoom};
ghost use Rattle.run_check.specs.Clauses.{FailsFirst};
ghost use Rattle.run_replay.specs.Judging.{IsBehindLoad, illegal_of};

use crate::{Unlike, replay};
use gdi_kinds::{NoMemory, Printed, Script};
use plain_graph::PlainGraph;
use run_check::{Clause, Illegal, first_misplaced};
use std::alloc::Global;

/// Why a printed run isn't legal: the least clause that it doesn't keep, and the first outcome that fails in it; `None`
/// exactly where it is legal. The graph is the one behind a load that has room, which has so many entries. It is refused for
/// want of memory alone.
pub fn first_illegal(
    alloc: Global,
    graph: PlainGraph,
    entries: u64,
    script: &Script,
    run: &Printed,
) -> Result<Option<Illegal>, NoMemory>
    ensures { IfOk result (λ first. (load : List Txn) → IsBehindLoad graph entries load → HaveRoom graph.shape empty_graph (load_entries load)
        → MatchOption first (IsLegalRun graph.shape load script.now run.now) (λ illegal. FailsFirst graph.shape (graph_of_run graph.shape load script.now run.now) entries script.now run.now illegal.clause illegal.place)) }
{
    if let Some(illegal) = first_misplaced(alloc, entries, script, run)? {
        return Ok(Some(illegal));
    }
    let unlike = replay(alloc, graph, entries, script, run)?;
    Ok(first_of(&unlike))
}

// The clause of the replies comes before that of the blocks.
fn first_of(unlike: &Unlike) -> Option<Illegal>
    ensures { result ≡ illegal_of unlike.now.replies unlike.now.room }
{
    match (unlike.replies, unlike.room) {
        (Some(place), _) => Some(Illegal {
            clause: Clause::Replies,
            place,
        }),
        (None, Some(place)) => Some(Illegal {
            clause: Clause::Room,
            place,
        }),
        (None, None) => None,
    }
}
