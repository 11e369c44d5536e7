ghost use Rattle.std.specs.Prelude.{◌≡◌, ◌<◌, ◌++◌, OnOk};
ghost use Rattle.gdi_kinds.specs.Constraint.{kind_of, same_kind};
ghost use Rattle.holder_codec.specs.Reading.{Gives, kind_of_code, value_at};
ghost use Rattle.holder_codec.specs.Values.{kind_code, byte_length, value_words};

use crate::texts::{read_text, write_bytes};
use crate::unread::Unread;
use crate::words::{read_bool, read_number};
use gdi_kinds::{Kind, NoMemory, Value};
use object_words::Words;
use std::alloc::Global;

/// The code of a kind.
pub(crate) fn code_of(kind: Kind) -> u64
    ensures value { result ≡ kind_code kind }
    ensures below { result < 4 }
{
    match kind {
        Kind::Int => 0,
        Kind::Bool => 1,
        Kind::Text => 2,
    }
}

/// The kind that has a code.
pub(crate) fn kind_of_code(code: u64) -> Result<Kind, Unread>
    ensures { Gives (λ kind. kind) result (kind_of_code code) }
{
    match code {
        0 => Ok(Kind::Int),
        1 => Ok(Kind::Bool),
        2 => Ok(Kind::Text),
        _ => Err(Unread::NotSpelled),
    }
}

/// The kind of a value.
pub(crate) fn kind_of(value: &Value) -> Kind
    ensures { result ≡ kind_of value.now }
{
    match value {
        Value::Int(_) => Kind::Int,
        Value::Bool(_) => Kind::Bool,
        Value::Text(_) => Kind::Text,
    }
}

/// Whether two kinds are one.
pub(crate) fn is_same_kind(one: Kind, other: Kind) -> bool
    ensures { result ≡ same_kind one other }
{
    match (one, other) {
        (Kind::Int, Kind::Int) | (Kind::Bool, Kind::Bool) | (Kind::Text, Kind::Text) => true,
        _ => false,
    }
}

/// How many bytes a value has.
pub(crate) fn byte_length(value: &Value) -> u64
    ensures { result ≡ byte_length value.now }
{
    match value {
        Value::Int(_) => 8,
        Value::Bool(_) => 1,
        Value::Text(text) => text.bytes().len() as u64,
    }
}

/// Puts the words of a value at the end.
pub(crate) fn write_value(value: &Value, out: &mut Words) -> Result<(), NoMemory>
    ensures { OnOk result (out.new ≡ out.old ++ value_words value.now) }
{
    match value {
        Value::Int(int) => out.push(int.cast_unsigned()),
        Value::Bool(bool) => out.push(u64::from(*bool)),
        Value::Text(text) => write_bytes(text.bytes(), out),
    }
}

/// The value of a kind that the words begin with. It has so many bytes.
#[tactic(auto, unfolding(crate::specs::Reading::value_at))]
pub(crate) fn read_value(
    alloc: Global,
    kind: Kind,
    size: u64,
    words: &mut &[u64],
) -> Result<Value, Unread>
    ensures { Gives (λ value. (value, words.new.now)) result (value_at kind size words.old.now) }
{
    match kind {
        Kind::Int if size == 8 => Ok(Value::Int(read_number(words)?.cast_signed())),
        Kind::Bool if size == 1 => Ok(Value::Bool(read_bool(words)?)),
        Kind::Text => Ok(Value::Text(read_text(alloc, size, words)?)),
        _ => Err(Unread::NotSpelled),
    }
}
