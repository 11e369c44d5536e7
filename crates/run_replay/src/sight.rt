ghost use Rattle.std.specs.Prelude.{◌≡◌, IfOk, OnOk};
ghost use Rattle.graph_model.specs.LegalRun.{MayEnd};
ghost use Rattle.run_replay.specs.Replaying.{Sees, graph_behind};

use gdi_kinds::{NoMemory, Outcome, Txn};
use map_graph::ModelRefused;
use plain_graph::PlainGraph;
use same_replies::Same;

// Whether an outcome is right on a graph: its replies, and that it is refused for blocks or isn't.
#[derive(Drop)]
pub(crate) struct Sight {
    pub(crate) replies: bool,
    pub(crate) room: bool,
}

// Looks at a transaction and its outcome on the graph at its place, and leaves the graph behind it.
pub(crate) fn look(graph: &mut PlainGraph, txn: &Txn, outcome: &Outcome) -> Result<Sight, NoMemory>
    requires { MayEnd txn.now outcome.now }
    ensures shape { graph.new.shape ≡ graph.old.shape }
    ensures sight { IfOk result (Sees graph.old txn.now outcome.now) }
    ensures graph { OnOk result (graph.new.graph ≡ graph_behind graph.old.shape graph.old.graph txn.now outcome.now) }
{
    match look_at(graph, txn, outcome) {
        Ok(sight) => Ok(sight),
        Err(ModelRefused::NoMemory) => Err(NoMemory),
    }
}

fn look_at(graph: &mut PlainGraph, txn: &Txn, outcome: &Outcome) -> Result<Sight, ModelRefused>
    requires { MayEnd txn.now outcome.now }
    ensures shape { graph.new.shape ≡ graph.old.shape }
    ensures sight { IfOk result (Sees graph.old txn.now outcome.now) }
    ensures graph { OnOk result (graph.new.graph ≡ graph_behind graph.old.shape graph.old.graph txn.now outcome.now) }
{
    match outcome {
        Outcome::Wrote { replies, .. } => {
            let room = graph.full(txn)?.is_none();
            let replies = graph.run(txn)?.is_same(replies);
            Ok(Sight { replies, room })
        }
        Outcome::Read { replies, .. } => {
            let replies = graph.run(txn)?.is_same(replies);
            Ok(Sight {
                replies,
                room: true,
            })
        }
        Outcome::Full { rank, .. } => {
            let room = graph.full(txn)? == Some(*rank);
            Ok(Sight {
                replies: true,
                room,
            })
        }
        Outcome::Aborted => Ok(Sight {
            replies: true,
            room: true,
        }),
    }
}
