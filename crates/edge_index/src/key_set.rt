ghost use Rattle.std.specs.Prelude.{◌≡◌, ◌<◌, ◌^◌, ◌==◌, [], length, IfOk, OnOk};
ghost use Rattle.std.specs.BTreeMap.{is_at};
ghost use Rattle.std.specs.BTreeSet.{insert_key};
ghost use Rattle.std.specs.Set.{remove_key};
ghost use Rattle.graph_model.specs.Graph.{edge_cmp};

use crate::EdgeKey;
use gdi_kinds::{Duplicate, NoMemory};
use std::alloc::Global;
use std::collections::BTreeSet;
use std::marker::Model;

/// Names of edges, rising.
#[derive(Debug, Drop)]
pub struct KeySet {
    keys: BTreeSet<EdgeKey, Global>,
}

impl Model for KeySet {
    ghost use Rattle.std.specs.Prelude.{List};
    ghost use Rattle.graph_model.specs.Graph.{EdgeKey as Key};

    ghost Value = { List Key };

    ghost view = { λ set. set.keys.keys };
}

impl KeySet {
    /// No edge. It takes no memory.
    pub fn new(alloc: Global) -> KeySet
        ensures { result ≡ [] }
    {
        KeySet {
            keys: BTreeSet::new(alloc),
        }
    }

    /// How many edges these are.
    pub fn len(&self) -> u64
        ensures value { result ≡ length self.now }
        ensures small { result < 2 ^ 63 }
    {
        self.keys.len() as u64
    }

    pub fn is_empty(&self) -> bool
        ensures { result ≡ (length self.now == 0) }
    {
        self.keys.len() == 0
    }

    /// The names, in their order.
    pub fn keys(&self) -> &BTreeSet<EdgeKey, Global>
        ensures { result.now.keys ≡ self.now }
    {
        &self.keys
    }

    /// The names in a vector.
    pub fn to_vec(&self, alloc: Global) -> Result<Vec<EdgeKey>, NoMemory>
        ensures { IfOk result (λ keys. keys.items ≡ self.now) }
    {
        Ok(self.keys.iter().copied().collect(alloc)?)
    }

    pub fn add(&mut self, key: EdgeKey) -> Result<(), NoMemory>
        ensures { OnOk result (self.new ≡ insert_key edge_cmp self.old key) }
    {
        self.keys.insert(key)?;
        Ok(())
    }

    /// Takes a name out, where it is there.
    pub fn take_out(&mut self, key: EdgeKey)
        ensures { self.new ≡ remove_key (is_at (edge_cmp key)) self.old }
    {
        self.keys.remove(&key);
    }
}

impl Duplicate for KeySet {
    fn copy(&self, _alloc: Global) -> Result<KeySet, NoMemory> {
        Ok(KeySet {
            keys: self.keys.clone()?,
        })
    }
}
