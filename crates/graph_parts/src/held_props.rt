ghost use Rattle.std.specs.Prelude.{◌≡◌, ◌+◌, ◌≤◌, [], ◌∷◌, ◌++◌, length, IfOk, OnOk};
ghost use Rattle.std.specs.Option.{option_copied};
ghost use Rattle.graph_model.specs.Maps.{at, is_there, with_at, without};
ghost use Rattle.graph_model.specs.Lookups.{values_at};
ghost use Rattle.graph_model.specs.Sizes.{words_of_value, words_of_values, words_of_props};

use crate::value_rows::{ValueRows, one_value};
use gdi_kinds::{Duplicate, NoMemory, Value, ValueList};
use std::alloc::Global;
use std::marker::Model;

/// Properties as the plain graph holds them, with the words that their values have.
#[derive(Debug, Drop)]
pub struct HeldProps {
    values: ValueRows,
    words: u64,
}

impl Model for HeldProps {
    ghost use Rattle.std.specs.Prelude.{◌≡◌, ◌≤◌};
    ghost use Rattle.graph_model.specs.Graph.{Props};
    ghost use Rattle.graph_model.specs.Sizes.{words_of_props};

    ghost Value = { Props };

    ghost view = { λ held. held.values };

    ghost invariant = { λ held. (held.words ≡ words_of_props held.values) × (held.words ≤ 1048576) };
}

impl HeldProps {
    /// No properties. It takes no memory.
    pub fn new(alloc: Global) -> HeldProps
        ensures { result ≡ [] }
    {
        HeldProps {
            values: ValueRows::new(alloc),
            words: 0,
        }
    }

    /// The words of all values.
    pub fn words(&self) -> u64
        ensures value { result ≡ words_of_props self.now }
        ensures within { result ≤ 1048576 }
    {
        self.words
    }

    /// How many types have values.
    pub fn count(&self) -> u64
        ensures { result ≡ length self.now }
    {
        self.values.len() as u64
    }

    /// The values of a type.
    pub fn get(&self, ty: u32) -> Option<&ValueList>
        ensures { option_copied result ≡ at self.now ty }
    {
        self.values.get(ty)
    }

    /// The values of all types, by the types' numbers.
    pub fn values(&self) -> &ValueRows
        ensures { result.now ≡ self.now }
    {
        &self.values
    }

    pub fn has(&self, ty: u32) -> bool
        ensures { result ≡ is_there self.now ty }
    {
        self.values.has(ty)
    }

    /// The words of all values if a type had this one alone.
    pub fn words_with(&self, ty: u32, value: &Value) -> u64
        ensures value { result ≡ words_of_props (with_at self.now ty (value.now ∷ [])) }
        ensures within { result ≤ 1048676 }
    {
        // This tells that the keys are in order.
        let _count = self.values.len();
        self.words - self.words_at(ty) + 2 + words_of_value(value)
    }

    /// The words of all values if this one stood behind those of a type.
    pub fn words_adding(&self, ty: u32, value: &Value) -> u64
        ensures value { result ≡ words_of_props (with_at self.now ty (values_at self.now ty ++ value.now ∷ [])) }
        ensures within { result ≤ 1048676 }
    {
        // This tells that the keys are in order.
        let _count = self.values.len();
        self.words + 2 + words_of_value(value)
    }

    // The words of the values of a type.
    fn words_at(&self, ty: u32) -> u64
        ensures value { result ≡ words_of_values (values_at self.now ty) }
        ensures within { result ≤ words_of_props self.now }
    {
        match self.values.get(ty) {
            Some(values) => words_of_values(values),
            None => 0,
        }
    }

    /// Gives a type this value alone.
    pub fn set(&mut self, alloc: Global, ty: u32, value: Value) -> Result<(), NoMemory>
        requires { words_of_props (with_at self.old ty (value ∷ [])) ≤ 1048576 }
        ensures { OnOk result (self.new ≡ with_at self.old ty (value ∷ [])) }
    {
        let words = self.words_with(ty, &value);
        self.values.put(ty, one_value(alloc, value)?)?;
        self.words = words;
        Ok(())
    }

    /// Puts a value behind those of a type.
    pub fn add(&mut self, alloc: Global, ty: u32, value: Value) -> Result<(), NoMemory>
        requires { words_of_props (with_at self.old ty (values_at self.old ty ++ value ∷ [])) ≤ 1048576 }
        ensures { OnOk result (self.new ≡ with_at self.old ty (values_at self.old ty ++ value ∷ [])) }
    {
        let words = self.words_adding(ty, &value);
        self.values.push(alloc, ty, value)?;
        self.words = words;
        Ok(())
    }

    /// Takes out all values of a type.
    pub fn remove(&mut self, ty: u32)
        ensures { self.new ≡ without self.old ty }
    {
        self.words -= self.words_at(ty);
        self.values.forget(ty);
    }
}

impl Duplicate for HeldProps {
    fn copy(&self, alloc: Global) -> Result<HeldProps, NoMemory> {
        Ok(HeldProps {
            values: self.values.copy(alloc)?,
            words: self.words,
        })
    }
}

/// The words of a list of values.
pub fn words_of_values(values: &ValueList) -> u64
    requires { words_of_values values.now ≤ 1048576 }
    ensures { result ≡ words_of_values values.now }
{
    values
        .as_slice()
        .iter()
        .map(|value| 2 + words_of_value(value))
        .sum()
}

/// The words of a value, 32 at most.
pub fn words_of_value(value: &Value) -> u64
    ensures value { result ≡ words_of_value value.now }
    ensures within { result ≤ 32 }
{
    match value {
        Value::Int(_) | Value::Bool(_) => 1,
        Value::Text(text) => text.bytes().len().div_ceil(8) as u64,
    }
}
