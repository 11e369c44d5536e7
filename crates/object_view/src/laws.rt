ghost use Rattle.std.specs.Prelude.{◌≡◌, ◌<◌, ℕ, Bool, List, length, sum_by};
ghost use Rattle.rma_layout.specs.Shape.{Shape};
ghost use Rattle.rma_layout.specs.Ranges.{IsInRange};
ghost use Rattle.object_words.specs.Contents.{Contents, IsByRisingObject, content_of, overlay};
ghost use Rattle.object_words.specs.Blocks.{contents_use, grown_blocks};
ghost use Rattle.graph_model.specs.Graph.{Graph};
ghost use Rattle.graph_model.specs.WellFormed.{IsWellFormed};
ghost use Rattle.graph_model.specs.Capacity.{Object, objects_on, blocks_used_on, words_of};
ghost use Rattle.holder_codec.specs.Represents.{VertexObjects, EdgeObjects, IsRepresented};
ghost use Rattle.object_view.specs.View.{IsOn, IsViewed, place_in};
ghost use Rattle.object_view.specs.Change.{IsChange, RankObject};
ghost use Rattle.object_view.specs.Growth.{ComeFrom, growth_between};

/// A store represents a well-formed graph exactly where its objects are those of the graph.
pub fn view_says_the_same()
    ensures viewed { (shape : Shape) (store : Contents) (g : Graph) (vertices : VertexObjects) (edges : EdgeObjects) → IsInRange shape → IsWellFormed g →
        IsRepresented shape store g vertices edges → IsViewed shape store g vertices edges }
    ensures represented { (shape : Shape) (store : Contents) (g : Graph) (vertices : VertexObjects) (edges : EdgeObjects) → IsInRange shape → IsWellFormed g →
        IsViewed shape store g vertices edges → IsRepresented shape store g vertices edges }
{}

/// Each object has as many words as the graph says, and the blocks that the contents use on a rank are those of the graph.
pub fn blocks_are_those_of_the_graph()
    ensures words { (shape : Shape) (store : Contents) (g : Graph) (vertices : VertexObjects) (edges : EdgeObjects) → IsWellFormed g →
        IsViewed shape store g vertices edges → (rank : ℕ) (object : Object) → IsOn shape g rank object →
        length (content_of store (place_in vertices edges rank object)) ≡ words_of shape g rank object }
    ensures blocks { (shape : Shape) (store : Contents) (g : Graph) (vertices : VertexObjects) (edges : EdgeObjects) → IsInRange shape → IsWellFormed g →
        IsViewed shape store g vertices edges → (rank : ℕ) → rank < shape.ranks → contents_use shape store rank ≡ blocks_used_on shape g rank }
{}

/// A change of some objects, where those that are touched have their new words and those that are gone are empty, leads
/// from a store of one graph to a store of the other.
pub fn changes_keep_the_view()
    ensures { (shape : Shape) (one other : Contents) (g h : Graph) (vertices vertices_after : VertexObjects) (edges edges_after : EdgeObjects) (touched gone : List RankObject) →
        IsInRange shape → IsWellFormed g → IsViewed shape one g vertices edges →
        IsChange shape one other g vertices edges h vertices_after edges_after touched gone → IsViewed shape other h vertices_after edges_after }
{}

/// What is written grows by as many blocks of a rank as the objects of the graph do: one that was there by what its words
/// take more, a new one by what they take besides its first.
pub fn growth_is_that_of_the_graph()
    ensures { (shape : Shape) (store writes : Contents) (g h : Graph) (vertices vertices_after : VertexObjects) (edges edges_after : EdgeObjects) → IsInRange shape → IsWellFormed g → IsWellFormed h →
        IsByRisingObject writes → IsViewed shape store g vertices edges → IsViewed shape (overlay store writes) h vertices_after edges_after →
        (rank : ℕ) (kept : Object → Bool) → rank < shape.ranks → ComeFrom shape store g h vertices edges vertices_after edges_after rank kept →
        grown_blocks shape store writes rank ≡ sum_by (λ object. growth_between shape g h rank object (kept object)) (objects_on shape h rank) }
{}
