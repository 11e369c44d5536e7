ghost use Rattle.rma_layout.specs.Shape.{standard_shape};
ghost use Rattle.holder_codec.specs.Represents.{Represents};
ghost use Rattle.object_view.specs.Example.{loops, words_of_loops};

/// A vertex with a label, a loop and a heavy edge to itself, and the words of its store one by one.
pub fn loops_are_represented()
    ensures { Represents standard_shape words_of_loops loops }
{}
