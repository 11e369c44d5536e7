ghost use Rattle.std.specs.Prelude.{◌≡◌};
ghost use Rattle.map_graph.specs.Lines.{is_wanted, line_at};

use edge_index::EdgeKey;
use gdi_kinds::EdgeLine;
use graph_parts::HeldEdge;

/// Which edges are meant.
#[derive(Clone, Copy, Debug, PartialEq, Eq)]
pub(crate) enum Wanted {
    Directed,
    Undirected,
    Any,
}

impl Wanted {
    pub(crate) fn has(self, undirected: bool) -> bool
        ensures { result ≡ is_wanted self undirected }
    {
        match self {
            Wanted::Directed => !undirected,
            Wanted::Undirected => undirected,
            Wanted::Any => true,
        }
    }
}

/// The line of an edge as its source has it, or as its target does.
pub(crate) fn line_at(key: EdgeKey, edge: &HeldEdge, at_source: bool) -> EdgeLine
    ensures { result ≡ line_at at_source (key, edge.now) }
{
    EdgeLine {
        inward: !at_source && !edge.undirected(),
        undirected: edge.undirected(),
        source: key.source(),
        ordinal: key.ordinal(),
        target: edge.target(),
    }
}
