ghost use Rattle.std.specs.Prelude.{◌≡◌, [], List, length};
ghost use Rattle.rma_layout.specs.Shape.{Shape};
ghost use Rattle.rma_layout.specs.Ranges.{IsInRange};
ghost use Rattle.object_words.specs.Contents.{Contents};
ghost use Rattle.graph_model.specs.Graph.{Graph};
ghost use Rattle.object_store.specs.State.{StoreState};
ghost use Rattle.object_store.specs.Works.{Looks};
ghost use Rattle.holder_codec.specs.declared.index_entry.IndexEntry.{IndexEntry};
ghost use Rattle.holder_codec.specs.Represents.{Represents};
ghost use Rattle.held_objects.specs.Knows.{Knows};
ghost use Rattle.label_index.specs.Index.{Indexes, IsIndexed, StaysKnown};
ghost use Rattle.label_index.specs.Tagged.{tagged};

use object_words::Law;

/// A store that represents a graph has as its index each label of each vertex, and no other entries: the slots fix them.
pub fn index_is_that_of_the_graph()
    ensures of_graph { (shape : Shape) (store : Contents) (g : Graph) →
        Represents shape store g → IsInRange shape → IsIndexed shape store (tagged g) }
    ensures fixed { (shape : Shape) (store : Contents) (one other : List IndexEntry) → IsInRange shape →
        IsIndexed shape store one → IsIndexed shape store other → one ≡ other }
{}

/// What the calls need is known at first, and stays known while a transaction looks.
pub fn knowledge_stays<L: Law>()
    ensures at_first { (state : StoreState L.Note) → IsInRange state.shape → state.writes ≡ [] → Knows Indexes state }
    ensures looks { (old new : StoreState L.Note) → Looks old new → StaysKnown (λ _. Unit {0}) old new }
{}
