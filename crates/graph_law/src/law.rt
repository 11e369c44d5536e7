use gdi_kinds::{ReplyList, Txn};
use holder_codec::KeepsGraph;
use object_words::Law;

/// A transaction with its replies.
#[derive(Drop)]
pub struct Noted {
    pub txn: Txn,
    pub replies: ReplyList,
}

/// The law of graphs: an entry is a transaction that commits, and did to the store what it does to the graph.
pub struct GraphLaw;

impl Law for GraphLaw {
    ghost use Rattle.graph_law.specs.Law.{Fits};

    type Note = Noted;

    ghost fits = { Fits };
}

impl KeepsGraph for GraphLaw {
    ghost use Rattle.holder_codec.specs.Keeping.{keeps_by_steps};
    ghost use Rattle.graph_law.specs.Law.{Fits};
    ghost use Rattle.graph_model.specs.Transactions.{graph_after_txn};

    ghost keeps_graph = { keeps_by_steps Fits (λ shape entry store g range fits is agrees.
        (graph_after_txn shape g entry.note.txn, (fits.at store g is agrees).represents)) };
}
