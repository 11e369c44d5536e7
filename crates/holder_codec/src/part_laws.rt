ghost use Rattle.std.specs.Prelude.{ℕ, List};
ghost use Rattle.std.specs.List.{AllByRecursion};
ghost use Rattle.rma_layout.specs.Shape.{Shape};
ghost use Rattle.rma_layout.specs.Placement.{Place, metadata};
ghost use Rattle.object_words.specs.Contents.{Contents, IsSameContents};
ghost use Rattle.graph_model.specs.Maps.{Map};
ghost use Rattle.graph_model.specs.Graph.{Name, PropType, Graph, Vertex, Edge, EdgeKey};
ghost use Rattle.holder_codec.specs.Represents.{VertexObjects, EdgeObjects, IsBucket, IsSlot, object_of, edge_object_of, heavy_edges, HasNames, BucketsLead, HasVertices, HasHeavyEdges, HasIndex, RestIsEmpty, IsRepresented, Represents};
ghost use Rattle.holder_codec.specs.Parts.{IsSameAt, IsSameWhere, IsElsewhere, HasAllButBuckets};

/// Each part of a graph's store looks at its own objects alone: contents with the same words there have it too.
pub fn parts_look_at_their_own_objects()
    ensures names { (one other : Contents) (labels : List Name) (types : List PropType) →
        IsSameAt one other metadata → HasNames one labels types → HasNames other labels types }
    ensures buckets { (shape : Shape) (one other : Contents) (vertices : VertexObjects) →
        IsSameWhere (IsBucket shape) one other → BucketsLead shape one vertices → BucketsLead shape other vertices }
    ensures vertices { (shape : Shape) (one other : Contents) (g : Graph) (vertices : VertexObjects) (edges : EdgeObjects) →
        AllByRecursion (λ entry. IsSameAt one other (object_of vertices entry.0)) g.vertices →
        HasVertices shape one g vertices edges → HasVertices shape other g vertices edges }
    ensures heavy_edges { (shape : Shape) (one other : Contents) (types : List PropType) (all : Map EdgeKey Edge) (edges : EdgeObjects) →
        AllByRecursion (λ entry. IsSameAt one other (edge_object_of edges entry.0)) (heavy_edges all) →
        HasHeavyEdges shape one types all edges → HasHeavyEdges shape other types all edges }
    ensures index { (shape : Shape) (one other : Contents) (labels : ℕ) (vertices : Map ℕ Vertex) →
        IsSameWhere (IsSlot shape) one other → HasIndex shape one labels vertices → HasIndex shape other labels vertices }
    ensures rest { (shape : Shape) (one other : Contents) (held : List Place) →
        IsSameWhere (IsElsewhere shape held) one other → RestIsEmpty shape one held → RestIsEmpty shape other held }
{}

/// Contents that differ in buckets alone keep the other parts.
pub fn buckets_alone()
    ensures { (shape : Shape) (one other : Contents) (g : Graph) (vertices : VertexObjects) (edges : EdgeObjects) →
        IsSameWhere (λ place. ¬ IsBucket shape place) one other →
        IsRepresented shape one g vertices edges → HasAllButBuckets shape other g vertices edges }
{}

/// Which empty objects contents list makes no difference.
pub fn same_contents_represent_the_same()
    ensures { (shape : Shape) (one other : Contents) (g : Graph) → IsSameContents one other →
        Represents shape one g → Represents shape other g }
{}
