ghost use Rattle.std.specs.Prelude.{◌≡◌, ℕ, [], ◌∷◌, ◌++◌, length};
ghost use Rattle.object_words.specs.Contents.{overlay};
ghost use Rattle.object_store.specs.State.{HasEveryRight, StoreState, committed, next_entry};
ghost use Rattle.object_store.specs.Sound.{Continues, IsSound, KeepsCommits};
ghost use Rattle.object_store.specs.Calls.{Commits};

use object_words::Law;

/// A store that stands for every rank is a map. No call but a commit changes what is in it, and a commit puts what was
/// written over it. So the clauses of `Store` say of each call, in whatever order the calls come, what the store is
/// afterwards.
pub fn whole_store_is_a_map<L: Law>()
    ensures others_keep { (old new : StoreState L.Note) → IsSound L.fits old → Continues L.fits old new → HasEveryRight old →
        KeepsCommits old new → new.seen ≡ old.seen }
    ensures commit_adds { (old new : StoreState L.Note) (note : L.Note) (number : ℕ) → IsSound L.fits old → Continues L.fits old new → HasEveryRight old →
        Commits note old new number → (number ≡ length old.seen) × (new.seen ≡ old.seen ++ next_entry old note ∷ []) }
    ensures commit_writes { (old new : StoreState L.Note) (note : L.Note) (number : ℕ) → IsSound L.fits old → Continues L.fits old new → HasEveryRight old →
        Commits note old new number → committed new ≡ overlay (committed old) old.writes }
{}
