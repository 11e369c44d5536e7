ghost use Rattle.std.specs.Prelude.{List};
ghost use Rattle.std.specs.List.{All};
ghost use Rattle.rma_layout.specs.Shape.{Shape};
ghost use Rattle.rma_layout.specs.Ranges.{IsInRange};
ghost use Rattle.object_words.specs.Entries.{Entry, ReadsAgree, store_after};
ghost use Rattle.graph_model.specs.Graph.{Graph};
ghost use Rattle.holder_codec.specs.Represents.{Represents};

use object_words::Law;

/// A law that keeps a graph: the store of any list of entries that fit, each of which read what was there, represents
/// one. Whoever reads a store under such a law finds the words of a graph in it. `keeps_by_steps` of `specs/Keeping.antt`
/// shows it entry by entry.
pub trait KeepsGraph: Law {
    ghost keeps_graph: { (shape : Shape) (history : List (Entry Self.Note)) → IsInRange shape → All (Self.fits shape) history → ReadsAgree history →
        (g : Graph) × Represents shape (store_after history) g };
}
