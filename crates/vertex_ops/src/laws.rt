ghost use Rattle.std.specs.Prelude.{◌≡◌, ℕ, Bool};
ghost use Rattle.rma_layout.specs.Placement.{Place};
ghost use Rattle.object_store.specs.State.{StoreState};
ghost use Rattle.object_store.specs.Works.{Looks};
ghost use Rattle.held_objects.specs.Changes.{any};
ghost use Rattle.vertex_ops.specs.Vertices.{HeldVertex, KnowsVertex, KnowsVertexWithSingle, is_single};

use object_words::Law;

/// A vertex with a type that isn't marked is a vertex; one that is known to have it so is known as such a vertex; and
/// what is known of a vertex stays known while a transaction looks.
pub fn vertices_are_known<L: Law>()
    ensures vertex { (number : ℕ) (object : Place) (passes : HeldVertex → Bool) (state : StoreState L.Note) →
        KnowsVertexWithSingle number object passes state → KnowsVertex object passes state }
    ensures single { (number : ℕ) (object : Place) (state : StoreState L.Note) →
        KnowsVertex object (is_single number) state → KnowsVertexWithSingle number object any state }
    ensures looks { (object : Place) (passes : HeldVertex → Bool) (old new : StoreState L.Note) → Looks old new →
        KnowsVertex object passes old → KnowsVertex object passes new }
{}
