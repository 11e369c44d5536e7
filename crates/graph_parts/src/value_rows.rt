ghost use Rattle.std.specs.Prelude.{◌≡◌, ◌≤◌, ◌<◌, [], ◌∷◌, ◌++◌, length, IfOk, OnOk, OnErr, MatchResult};
ghost use Rattle.std.specs.Option.{option_copied};
ghost use Rattle.std.specs.Ordering.{nat_cmp};
ghost use Rattle.graph_model.specs.Maps.{IsMap, at, is_there, with_at, without};
ghost use Rattle.graph_model.specs.Lookups.{values_at};
ghost use Rattle.graph_parts.specs.Rows.{IsAt, IsGap};

use gdi_kinds::{Duplicate, NoMemory, Value, ValueList};
use std::alloc::Global;
use std::marker::Model;

/// Values by the numbers of their types, in a vector that rises by these numbers: a part of a graph has few types, and a
/// tree's nodes would take more memory than the values.
#[derive(Debug, Drop)]
pub struct ValueRows {
    rows: Vec<(u32, ValueList)>,
}

impl Model for ValueRows {
    ghost use Rattle.std.specs.Ordering.{nat_cmp};
    ghost use Rattle.graph_model.specs.Graph.{Props};
    ghost use Rattle.graph_model.specs.Maps.{IsMap};

    ghost Value = { Props };

    ghost view = { λ held. held.rows.items };

    ghost invariant = { λ held. IsMap nat_cmp held.rows.items };
}

impl ValueRows {
    /// No values. It takes no memory.
    pub fn new(alloc: Global) -> ValueRows
        ensures { result ≡ [] }
    {
        ValueRows {
            rows: Vec::new(alloc),
        }
    }

    /// How many types have values.
    pub fn len(&self) -> usize
        ensures value { result ≡ length self.now }
        ensures ordered { IsMap nat_cmp self.now }
    {
        self.rows.len()
    }

    /// The rows, in their order.
    pub fn as_slice(&self) -> &[(u32, ValueList)]
        ensures { result.now ≡ self.now }
    {
        self.rows.as_slice()
    }

    /// The values of a type.
    pub fn get(&self, ty: u32) -> Option<&ValueList>
        ensures { option_copied result ≡ at self.now ty }
    {
        match place_of(self.rows.as_slice(), ty) {
            Ok(place) => Some(&self.rows[place].1),
            Err(_) => None,
        }
    }

    pub fn has(&self, ty: u32) -> bool
        ensures { result ≡ is_there self.now ty }
    {
        place_of(self.rows.as_slice(), ty).is_ok()
    }

    /// Gives a type these values, in the place of those that it had.
    pub fn put(&mut self, ty: u32, values: ValueList) -> Result<(), NoMemory>
        ensures ok { OnOk result (self.new ≡ with_at self.old ty values) }
        ensures err { OnErr result (self.new ≡ self.old) }
    {
        match place_of(self.rows.as_slice(), ty) {
            Ok(place) => {
                self.rows[place].1 = values;
                Ok(())
            }
            Err(place) => {
                self.rows.insert(place, (ty, values))?;
                Ok(())
            }
        }
    }

    /// Puts a value behind those of a type.
    pub fn push(&mut self, alloc: Global, ty: u32, value: Value) -> Result<(), NoMemory>
        ensures ok { OnOk result (self.new ≡ with_at self.old ty (values_at self.old ty ++ value ∷ [])) }
        ensures err { OnErr result (self.new ≡ self.old) }
    {
        match place_of(self.rows.as_slice(), ty) {
            Ok(place) => {
                self.rows[place].1.push(value)?;
                Ok(())
            }
            Err(place) => {
                self.rows.insert(place, (ty, one_value(alloc, value)?))?;
                Ok(())
            }
        }
    }

    /// Takes out all values of a type.
    pub fn forget(&mut self, ty: u32)
        ensures left { self.new ≡ without self.old ty }
        ensures ordered { IsMap nat_cmp self.old }
    {
        self.rows.retain(|row| row.0 != ty);
    }
}

impl Duplicate for ValueRows {
    fn copy(&self, alloc: Global) -> Result<ValueRows, NoMemory> {
        let mut rows = Vec::with_capacity(alloc, self.rows.len())?;
        for (ty, values) in &self.rows {
            rows.push((*ty, values.copy(alloc)?))?;
        }
        Ok(ValueRows { rows })
    }
}

/// Where the values of a type stand, or else where they would stand.
fn place_of(rows: &[(u32, ValueList)], ty: u32) -> Result<usize, usize>
    requires { IsMap nat_cmp rows.now }
    ensures within { MatchResult result (λ i. i < length rows.now) (λ i. i ≤ length rows.now) }
    ensures place { MatchResult result (IsAt rows.now ty) (IsGap rows.now ty) }
{
    rows.binary_search_by_key(&ty, |row| row.0)
}

/// A list of this value alone, with no room for another.
pub(crate) fn one_value(alloc: Global, value: Value) -> Result<ValueList, NoMemory>
    ensures { IfOk result (λ values. values ≡ value ∷ []) }
{
    let mut values = Vec::with_capacity(alloc, 1)?;
    values.push(value)?;
    Ok(ValueList::from_vec(values))
}
