ghost use Rattle.std.specs.Prelude.{◌≡◌, ℕ, [], Bool, true, false, Option, IsSome};
ghost use Rattle.rma_layout.specs.Shape.{Shape};
ghost use Rattle.rma_layout.specs.Ranges.{IsInRange};
ghost use Rattle.rma_layout.specs.Placement.{Place};
ghost use Rattle.object_words.specs.Contents.{Contents, IsByRisingObject};
ghost use Rattle.graph_model.specs.Maps.{at};
ghost use Rattle.object_store.specs.State.{StoreState};
ghost use Rattle.object_store.specs.Works.{Looks, Reaches};
ghost use Rattle.holder_codec.specs.Represents.{VertexObjects, BucketsLead, IsBucket};
ghost use Rattle.held_objects.specs.Knows.{Knows};
ghost use Rattle.id_hash.specs.Buckets.{Has, Leads, LeadsTo, StaysKnown};

use object_words::Law;

/// What the calls need is known at first, and stays known while a transaction looks, or reaches no bucket.
pub fn knowledge_stays<L: Law>()
    ensures at_first { (state : StoreState L.Note) → IsInRange state.shape → state.writes ≡ [] → Knows Leads state }
    ensures looks { (old new : StoreState L.Note) → Looks old new → StaysKnown (λ _. Unit {0}) old new }
    ensures elsewhere { (Reached : Place → Bool) (Makes : ℕ → Bool) (old new : StoreState L.Note) →
        ((place : Place) → IsBucket old.shape place → Reached place ≡ false) →
        Reaches (λ place. Reached place ≡ true) (λ rank. Makes rank ≡ true) old new →
        IsByRisingObject new.writes → StaysKnown (λ _. Unit {0}) old new }
    ensures leads { (id : ℕ) (found : Option Place) (state : StoreState L.Note) →
        Knows (LeadsTo id found) state → Knows Leads state }
{}

/// The buckets fix the vertices: what holds of some vertices to which they lead holds of all.
pub fn some_vertices_are_all()
    ensures leads_to { (shape : Shape) (contents : Contents) (id : ℕ) (found : Option Place) →
        IsInRange shape → LeadsTo id found shape contents →
        (vertices : VertexObjects) → BucketsLead shape contents vertices → at vertices id ≡ found }
    ensures has { (shape : Shape) (contents : Contents) (id : ℕ) → IsInRange shape → Has id shape contents →
        (vertices : VertexObjects) → BucketsLead shape contents vertices → IsSome (at vertices id) }
{}
