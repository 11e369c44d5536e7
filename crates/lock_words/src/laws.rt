ghost use Rattle.std.specs.Prelude.{◌≡◌, ◌≢◌, ℕ, ◌+◌, ◌*◌, ◌^◌, ◌<◌, ◌≤◌, ◌↔◌};
ghost use Rattle.lock_words.specs.Conflicts.{Conflicts};
ghost use Rattle.lock_words.specs.Counts.{lock_word, gate_word};
ghost use Rattle.lock_words.specs.declared.want.Want.TheVariants.{Share, Mark, Rise, Writer, Whole};

/// When a word conflicts, by what it counts.
pub fn conflicts_by_counts()
    ensures share { (shares marks : ℕ) → shares < 2 ^ 32 → marks ≤ 1 →
        Conflicts Share (lock_word shares marks) ↔ (marks ≡ 1) }
    ensures mark { (shares marks : ℕ) → Conflicts Mark (lock_word shares marks) ↔ (0 < shares + marks) }
    ensures rise { (shares marks : ℕ) → shares < 2 ^ 32 →
        Conflicts Rise (lock_word shares marks) ↔ (shares + 2 * marks ≢ 1) }
    ensures writer { (writers wholes : ℕ) → writers < 2 ^ 32 →
        Conflicts Writer (gate_word writers wholes) ↔ (0 < wholes) }
    ensures whole { (writers wholes : ℕ) → writers < 2 ^ 32 →
        Conflicts Whole (gate_word writers wholes) ↔ (0 < writers) }
{}
