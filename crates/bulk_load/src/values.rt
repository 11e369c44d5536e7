ghost use Rattle.std.specs.Prelude.{◌≡◌, ◌++◌, ◌∷◌, [], List, IfOk, MatchOption, MatchResult, map};
ghost use Rattle.gdi_kinds.specs.declared.value.Value.{Value as AValue};
ghost use Rattle.bulk_load.specs.declared.load_fault.LoadFault.TheVariants as fault;
ghost use Rattle.bulk_load.specs.Fields.{Spells, SpellAll, parts_of};
ghost use Rattle.bulk_load.specs.Rows.{put};
ghost use Rattle.bulk_load.specs.Stops.{OrNoMemory};

use crate::column::Column;
use crate::load_fault::LoadFault;
use crate::owner::Owner;
use crate::pieces::first_piece;
use crate::stop::Stop;
use gdi_kinds::{Call, CallList, Kind, NoMemory, Text, Unfit, Value};
use std::alloc::Global;
use text_words::{bool_of, int_of};

/// Puts the calls behind `calls` that give its owner the values of a column's field.
pub(crate) fn put_field(
    alloc: Global,
    owner: Owner,
    column: &Column,
    field: &[u8],
    calls: &mut CallList,
) -> Result<(), Stop>
    ensures { MatchResult result
        (λ _. (values : List AValue) × SpellAll column.now.kind (parts_of column.now field.now) values × (calls.new ≡ calls.old ++ map (put owner column.now) values))
        (OrNoMemory (λ told. (told ≡ fault.Value) × ((values : List AValue) → ¬ SpellAll column.now.kind (parts_of column.now field.now) values))) }
{
    if field.is_empty() {
        return Ok(());
    }
    if !column.many {
        return put_part(alloc, owner, column, field, calls);
    }
    let mut rest = field;
    'pieces: loop {
        let (piece, behind) = first_piece(rest);
        put_part(alloc, owner, column, piece, calls)?;
        match behind {
            Some(next) => rest = next,
            None => return Ok(()),
        }
    }
}

// Puts the call behind `calls` that gives its owner the value of a part of a field.
fn put_part(
    alloc: Global,
    owner: Owner,
    column: &Column,
    part: &[u8],
    calls: &mut CallList,
) -> Result<(), Stop>
    ensures { MatchResult result
        (λ _. (v : AValue) × Spells column.now.kind part.now v × (calls.new ≡ calls.old ++ map (put owner column.now) (v ∷ [])))
        (OrNoMemory (λ told. (told ≡ fault.Value) × ((v : AValue) → ¬ Spells column.now.kind part.now v))) }
{
    let Some(value) = value_of(alloc, column.kind, part)? else {
        return Err(Stop::Bad(LoadFault::Value));
    };
    calls.push(put(owner, column, value))?;
    Ok(())
}

// The call that gives its owner a value.
fn put(owner: Owner, column: &Column, value: Value) -> Call
    ensures { result ≡ put owner column.now value }
{
    let prop = column.name;
    match owner {
        Owner::Vertex(id) if column.many => Call::Add { id, prop, value },
        Owner::Vertex(id) => Call::Set { id, prop, value },
        Owner::Edge(source, ordinal) if column.many => Call::EAdd {
            source,
            ordinal,
            prop,
            value,
        },
        Owner::Edge(source, ordinal) => Call::ESet {
            source,
            ordinal,
            prop,
            value,
        },
    }
}

// The value of a kind that bytes spell.
fn value_of(alloc: Global, kind: Kind, bytes: &[u8]) -> Result<Option<Value>, NoMemory>
    ensures { IfOk result (λ read. MatchOption read ((v : AValue) → ¬ Spells kind bytes.now v) (Spells kind bytes.now)) }
{
    match kind {
        Kind::Int => Ok(int_value(bytes)),
        Kind::Bool => Ok(bool_value(bytes)),
        Kind::Text => text_value(alloc, bytes),
    }
}

fn int_value(bytes: &[u8]) -> Option<Value>
    ensures { MatchOption result ((v : AValue) → ¬ Spells Kind.Int bytes.now v) (Spells Kind.Int bytes.now) }
{
    match int_of(bytes) {
        Some(int) => Some(Value::Int(int)),
        None => None,
    }
}

fn bool_value(bytes: &[u8]) -> Option<Value>
    ensures { MatchOption result ((v : AValue) → ¬ Spells Kind.Bool bytes.now v) (Spells Kind.Bool bytes.now) }
{
    match bool_of(bytes) {
        Some(b) => Some(Value::Bool(b)),
        None => None,
    }
}

fn text_value(alloc: Global, bytes: &[u8]) -> Result<Option<Value>, NoMemory>
    ensures { IfOk result (λ read. MatchOption read ((v : AValue) → ¬ Spells Kind.Text bytes.now v) (Spells Kind.Text bytes.now)) }
{
    match Text::of(alloc, bytes) {
        Ok(text) => Ok(Some(Value::Text(text))),
        Err(Unfit::NotText) => Ok(None),
        Err(Unfit::NoMemory) => Err(NoMemory),
    }
}
