ghost use Rattle.std.specs.Prelude.{◌≡◌, ℕ, ◌+◌, ◌≤◌, [], OnOk, if◌then◌else◌, ◌==◌};
ghost use Rattle.graph_parts.specs.Counts.{count_of};

use edge_index::copy_of_map;
use gdi_kinds::{Duplicate, NoMemory};
use std::alloc::Global;
use std::collections::BTreeMap;
use std::marker::Model;

/// How often each key counts. One that is absent counts 0.
#[derive(Debug, Drop)]
pub struct Tally {
    counts: BTreeMap<u64, u64, Global>,
}

impl Model for Tally {
    ghost use Rattle.std.specs.Prelude.{ℕ};
    ghost use Rattle.graph_model.specs.Maps.{Map};

    ghost Value = { Map ℕ ℕ };

    ghost view = { λ tally. tally.counts.entries };
}

impl Tally {
    /// No key counts. It takes no memory.
    pub fn new(alloc: Global) -> Tally
        ensures { result ≡ [] }
    {
        Tally {
            counts: BTreeMap::new(alloc),
        }
    }

    /// How often a key counts.
    pub fn count(&self, key: u64) -> u64
        ensures { result ≡ count_of self.now key }
    {
        self.counts.get(&key).copied().unwrap_or(0)
    }

    /// Counts a key once more.
    pub fn raise(&mut self, key: u64) -> Result<(), NoMemory>
        ensures { OnOk result ((q : ℕ) → count_of self.new q ≡ count_of self.old q + (if key == q then 1 else 0)) }
    {
        // No memory holds so many that their number passes 64 bits.
        let Some(raised) = self.count(key).checked_add(1) else {
            return Err(NoMemory);
        };
        self.counts.insert(key, raised)?;
        Ok(())
    }

    /// Counts a key once less.
    pub fn lower(&mut self, key: u64) -> Result<(), NoMemory>
        requires { 1 ≤ count_of self.old key }
        ensures { OnOk result ((q : ℕ) → count_of self.new q + (if key == q then 1 else 0) ≡ count_of self.old q) }
    {
        let lowered = self.count(key) - 1;
        self.counts.insert(key, lowered)?;
        Ok(())
    }
}

impl Duplicate for Tally {
    fn copy(&self, alloc: Global) -> Result<Tally, NoMemory> {
        Ok(Tally {
            counts: copy_of_map(alloc, &self.counts)?,
        })
    }
}
