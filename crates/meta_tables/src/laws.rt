ghost use Rattle.std.specs.Prelude.{◌≡◌, ℕ, [], Bool, true, false};
ghost use Rattle.rma_layout.specs.Shape.{Shape};
ghost use Rattle.rma_layout.specs.Placement.{Place, metadata};
ghost use Rattle.object_words.specs.Contents.{Contents, IsByRisingObject};
ghost use Rattle.graph_model.specs.Graph.{Graph};
ghost use Rattle.object_store.specs.State.{StoreState};
ghost use Rattle.object_store.specs.Works.{Looks, Reaches};
ghost use Rattle.holder_codec.specs.declared.meta_holder.MetaHolder.{MetaHolder};
ghost use Rattle.holder_codec.specs.Represents.{Represents};
ghost use Rattle.held_objects.specs.Changes.{any};
ghost use Rattle.meta_tables.specs.Names.{HasNames, KnowsNames, names_of};

use object_words::Law;

/// A store that represents a graph has the names of the graph.
pub fn names_are_those_of_the_graph()
    ensures { (shape : Shape) (store : Contents) (g : Graph) → Represents shape store g → HasNames store (names_of g) }
{}

/// What the calls need is known at first, and stays known while a transaction looks, or reaches no metadata.
pub fn knowledge_stays<L: Law>()
    ensures at_first { (state : StoreState L.Note) → state.writes ≡ [] → KnowsNames any state }
    ensures looks { (passes : MetaHolder → Bool) (old new : StoreState L.Note) → Looks old new →
        KnowsNames passes old → KnowsNames passes new }
    ensures elsewhere { (passes : MetaHolder → Bool) (Reached : Place → Bool) (Makes : ℕ → Bool) (old new : StoreState L.Note) →
        Reached metadata ≡ false →
        Reaches (λ place. Reached place ≡ true) (λ rank. Makes rank ≡ true) old new →
        IsByRisingObject new.writes → KnowsNames passes old → KnowsNames passes new }
{}
