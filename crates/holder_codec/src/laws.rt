ghost use Rattle.std.specs.Prelude.{◌≡◌, ℕ, ◌+◌, ◌*◌, List, [], length, sum_by};
ghost use Rattle.std.specs.List.{flat_map, range_with_len};
ghost use Rattle.rma_layout.specs.Shape.{Shape};
ghost use Rattle.rma_layout.specs.Ranges.{IsInRange};
ghost use Rattle.rma_layout.specs.Placement.{Place};
ghost use Rattle.object_words.specs.Contents.{Contents};
ghost use Rattle.graph_model.specs.Maps.{keys};
ghost use Rattle.graph_model.specs.Graph.{PropType, Graph, Vertex, Edge, EdgeKey, empty_graph};
ghost use Rattle.graph_model.specs.Sizes.{words_of_value, words_of_vertex, words_of_edge, words_of_bucket, words_of_slot, words_of_names};
ghost use Rattle.graph_model.specs.WellFormed.{IsWellFormed};
ghost use Rattle.holder_codec.specs.declared.bucket_holder.BucketHolder.{BucketHolder};
ghost use Rattle.holder_codec.specs.declared.edge_holder.EdgeHolder.{EdgeHolder};
ghost use Rattle.holder_codec.specs.declared.vertex_holder.VertexHolder.{VertexHolder};
ghost use Rattle.holder_codec.specs.Bucket.{IsBucketHolder, bucket_words};
ghost use Rattle.holder_codec.specs.Vertex.{IsVertexHolder, vertex_words};
ghost use Rattle.holder_codec.specs.EdgeObject.{IsEdgeHolder, edge_object_words};
ghost use Rattle.holder_codec.specs.Holders.{edge_words, names_words};
ghost use Rattle.holder_codec.specs.Represents.{VertexObjects, EdgeObjects, BucketsLead, Represents, entries_of, holder_of, pairs_of_label};

/// No two buckets have the same words, no two vertices, and no two edges.
pub fn spellings_differ()
    ensures buckets { (one other : BucketHolder) → IsBucketHolder one → IsBucketHolder other →
        bucket_words one ≡ bucket_words other → one ≡ other }
    ensures vertices { (one other : VertexHolder) → IsVertexHolder one → IsVertexHolder other →
        vertex_words one ≡ vertex_words other → one ≡ other }
    ensures edges { (one other : EdgeHolder) → IsEdgeHolder one → IsEdgeHolder other →
        edge_object_words one ≡ edge_object_words other → one ≡ other }
{}

/// How many words a bucket has, a vertex, and a heavy edge's object: a property has 2 words before those of its value.
pub fn words_are_counted()
    ensures bucket { (bucket : BucketHolder) → length (bucket_words bucket) ≡ 2 * length bucket.entries }
    ensures vertex { (vertex : VertexHolder) → length (vertex_words vertex) ≡
        5 + length vertex.labels + sum_by (λ prop. 2 + words_of_value prop.value) vertex.props
        + 5 * length vertex.edges }
    ensures edge { (edge : EdgeHolder) → length (edge_object_words edge) ≡
        5 + length edge.labels + sum_by (λ prop. 2 + words_of_value prop.value) edge.props }
{}

/// A store without a word represents the graph without a vertex.
pub fn empty_store_represents_empty_graph()
    ensures { (shape : Shape) → Represents shape [] empty_graph }
{}

/// The buckets fix the objects of the vertices, and a store represents one graph at most.
pub fn store_represents_one_graph()
    ensures leads { (shape : Shape) (store : Contents) (g : Graph) (represents : Represents shape store g) → IsInRange shape → BucketsLead shape store represents.vertices }
    ensures objects { (shape : Shape) (store : Contents) (one other : VertexObjects) → IsInRange shape → BucketsLead shape store one → BucketsLead shape store other → one ≡ other }
    ensures edge_objects { (shape : Shape) (store : Contents) (g : Graph) (one other : Represents shape store g) → IsInRange shape → one.edges ≡ other.edges }
    ensures graph { (shape : Shape) (store : Contents) (one other : Graph) → IsInRange shape → Represents shape store one → Represents shape store other → one ≡ other }
{}

/// The sizes that a graph's calls and capacity go by are the lengths of what is spelled: of a vertex, of a heavy edge, of a
/// bucket, of an object of the index, and of the names.
pub fn sizes_are_lengths()
    ensures vertex { (g : Graph) (vertices : VertexObjects) (edges : EdgeObjects) (id : ℕ) (vertex : Vertex) →
        length (vertex_words (holder_of g vertices edges id vertex)) ≡ words_of_vertex g id vertex }
    ensures edge { (types : List PropType) (key : EdgeKey) (edge : Edge) →
        length (edge_words types key edge) ≡ words_of_edge edge }
    ensures bucket { (shape : Shape) (g : Graph) (vertices : VertexObjects) (place : Place) →
        keys vertices ≡ keys g.vertices →
        length (bucket_words (record { entries = entries_of shape vertices place })) ≡ words_of_bucket shape g place }
    ensures index { (shape : Shape) (g : Graph) (place : Place) → IsWellFormed g →
        length (flat_map (pairs_of_label shape g.vertices place) (range_with_len 0 (length g.labels)))
        ≡ words_of_slot shape g place }
    ensures names { (g : Graph) → length (names_words g.labels g.types) ≡ words_of_names g }
{}
