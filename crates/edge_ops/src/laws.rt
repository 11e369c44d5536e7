ghost use Rattle.std.specs.Prelude.{◌≡◌, ℕ, true, IsSome};
ghost use Rattle.rma_layout.specs.Shape.{Shape};
ghost use Rattle.rma_layout.specs.Ranges.{IsInRange};
ghost use Rattle.object_words.specs.Contents.{Contents};
ghost use Rattle.gdi_kinds.specs.declared.call.Dir.{Dir};
ghost use Rattle.graph_model.specs.Graph.{Graph, vertex_at};
ghost use Rattle.graph_model.specs.Lookups.{lines_at};
ghost use Rattle.holder_codec.specs.Represents.{EdgeObjects, Represents, VertexObjects, object_of, records_of};
ghost use Rattle.edge_ops.specs.CuttingAll.{HoldsAround};
ghost use Rattle.edge_ops.specs.HeldEdges.{HoldsOut};
ghost use Rattle.edge_ops.specs.Lines.{lines_of};
ghost use Rattle.edge_ops.specs.OfGraph.{around_of_graph, out_of_graph};

/// The lines of the records that a graph's store has of a vertex are the graph's lines of the vertex.
pub fn lines_are_those_of_the_graph()
    ensures { (g : Graph) (vertices : VertexObjects) (edges : EdgeObjects) (id : ℕ) (dir : Dir) →
        lines_of id dir (records_of g vertices edges id) ≡ lines_at g (λ _. true) id dir }
{}

/// A store that represents a graph holds each of its edges: at each vertex and ordinal there is what is known of an edge
/// before it is loaded, kept or cut, and at each vertex what is known before all its edges are cut.
pub fn edges_are_those_of_the_graph()
    ensures out { (shape : Shape) (store : Contents) (g : Graph) (represents : Represents shape store g) → IsInRange shape →
        (id ordinal : ℕ) → IsSome (vertex_at g id) →
        HoldsOut shape (object_of represents.vertices id) ordinal store (out_of_graph g represents.vertices represents.edges id ordinal) }
    ensures around { (shape : Shape) (store : Contents) (g : Graph) (represents : Represents shape store g) → IsInRange shape →
        (id : ℕ) → IsSome (vertex_at g id) →
        HoldsAround shape (object_of represents.vertices id) store (around_of_graph g represents.vertices represents.edges id) }
{}
