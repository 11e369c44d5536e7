ghost use Rattle.std.specs.Prelude.{◌≡◌, ℕ, ◌<◌, ◌^◌, ◌==◌, [], length, IfOk, OnOk, if◌then◌else◌};
ghost use Rattle.std.specs.Option.{option_copied};
ghost use Rattle.std.specs.BTreeMap.{is_at};
ghost use Rattle.std.specs.BTreeSet.{insert_key};
ghost use Rattle.std.specs.Set.{remove_key};
ghost use Rattle.graph_model.specs.Graph.{edge_cmp};
ghost use Rattle.graph_model.specs.Maps.{at};
ghost use Rattle.edge_index.specs.Index.{keys_at};

use crate::map_copy::copy_of_map;
use crate::{EdgeKey, KeySet};
use gdi_kinds::{Duplicate, NoMemory};
use std::alloc::Global;
use std::collections::BTreeMap;
use std::marker::Model;

/// Which edges each vertex has. One that is absent has none.
#[derive(Debug, Drop)]
pub struct EdgeIndex {
    alloc: Global,
    // By identifier.
    sets: BTreeMap<u64, KeySet, Global>,
}

impl Model for EdgeIndex {
    ghost use Rattle.std.specs.Prelude.{ℕ, List};
    ghost use Rattle.graph_model.specs.Graph.{EdgeKey as Key};
    ghost use Rattle.graph_model.specs.Maps.{Map};

    ghost Value = { Map ℕ (List Key) };

    ghost view = { λ index. index.sets.entries };
}

impl EdgeIndex {
    /// No vertex has an edge. It takes no memory.
    pub fn new(alloc: Global) -> EdgeIndex
        ensures { result ≡ [] }
    {
        EdgeIndex {
            alloc,
            sets: BTreeMap::new(alloc),
        }
    }

    /// The edges of a vertex, if it has any.
    pub fn get(&self, id: u64) -> Option<&KeySet>
        ensures { option_copied result ≡ at self.now id }
    {
        self.sets.get(&id)
    }

    /// How many edges a vertex has.
    pub fn count(&self, id: u64) -> u64
        ensures value { result ≡ length (keys_at self.now id) }
        ensures small { result < 2 ^ 63 }
    {
        match self.get(id) {
            Some(set) => set.len(),
            None => 0,
        }
    }

    /// The edges of a vertex in a vector, in their order.
    pub fn to_vec(&self, id: u64) -> Result<Vec<EdgeKey>, NoMemory>
        ensures { IfOk result (λ keys. keys.items ≡ keys_at self.now id) }
    {
        match self.get(id) {
            Some(set) => set.to_vec(self.alloc),
            None => Ok(Vec::new(self.alloc)),
        }
    }

    pub fn add(&mut self, id: u64, key: EdgeKey) -> Result<(), NoMemory>
        ensures { OnOk result ((q : ℕ) → keys_at self.new q
            ≡ (if id == q then insert_key edge_cmp (keys_at self.old id) key else keys_at self.old q)) }
    {
        if let Some(set) = self.sets.get_mut(&id) {
            set.add(key)?;
            return Ok(());
        }
        let mut set = KeySet::new(self.alloc);
        set.add(key)?;
        self.sets.insert(id, set)?;
        Ok(())
    }

    /// Takes an edge of a vertex out, where it is there.
    pub fn take_out(&mut self, id: u64, key: EdgeKey)
        ensures { (q : ℕ) → keys_at self.new q
            ≡ (if id == q then remove_key (is_at (edge_cmp key)) (keys_at self.old id) else keys_at self.old q) }
    {
        let Some(set) = self.sets.get_mut(&id) else {
            return;
        };
        set.take_out(key);
    }

    /// Takes out all edges of a vertex.
    pub fn forget(&mut self, id: u64)
        ensures { (q : ℕ) → keys_at self.new q ≡ (if id == q then [] else keys_at self.old q) }
    {
        self.sets.remove(&id);
    }
}

impl Duplicate for EdgeIndex {
    fn copy(&self, alloc: Global) -> Result<EdgeIndex, NoMemory> {
        Ok(EdgeIndex {
            alloc,
            sets: copy_of_map(alloc, &self.sets)?,
        })
    }
}
