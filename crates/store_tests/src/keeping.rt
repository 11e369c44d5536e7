ghost use Rattle.std.specs.Prelude.{◌≡◌};
ghost use Rattle.object_words.specs.Contents.{Contents, Agrees, overlay};
ghost use Rattle.graph_model.specs.Graph.{Graph};
ghost use Rattle.holder_codec.specs.Represents.{Represents};
ghost use Rattle.holder_codec.specs.Keeping.{keeps_by_steps};

use holder_codec::KeepsGraph;
use object_words::Law;

/// The least that a law asks for that keeps a graph: what was a graph is one with the writes.
pub struct Keeping;

impl Law for Keeping {
    type Note = ();

    ghost fits = { λ shape entry. (store : Contents) (g : Graph) → Represents shape store g →
        Agrees entry.reads store → (h : Graph) × Represents shape (overlay store entry.writes) h };
}

impl KeepsGraph for Keeping {
    ghost keeps_graph = { keeps_by_steps Self.fits (λ shape entry store g range fits is agrees. fits store g is agrees) };
}
