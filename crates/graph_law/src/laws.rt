ghost use Rattle.std.specs.Prelude.{◌≡◌, [], ◌≢◌};
ghost use Rattle.object_store.specs.State.{StoreState};
ghost use Rattle.object_store.specs.Sound.{StaysBegun};
ghost use Rattle.object_words.specs.Contents.{IsByRisingObject};
ghost use Rattle.gdi_kinds.specs.declared.call.Call.{Call};
ghost use Rattle.gdi_kinds.specs.declared.reply.Reply.{Reply};
ghost use Rattle.held_objects.specs.Knows.{Knows};
ghost use Rattle.graph_law.specs.Calls.{AppliesCall, Stands};
ghost use Rattle.graph_law.specs.declared.law.Noted.{Noted};

/// That the store is one of a graph is known at first, and after each call that was known to begin at one.
pub fn knowledge_stays()
    ensures at_first { (state : StoreState Noted) → state.writes ≡ [] → Knows Stands state }
    ensures after_calls { (call : Call) (reply : Reply) (old new : StoreState Noted) → StaysBegun old new → IsByRisingObject new.writes →
        AppliesCall call old new reply → Knows Stands old → Knows Stands new }
{}
