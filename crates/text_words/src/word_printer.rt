ghost use Rattle.std.specs.Prelude.{◌≡◌, ◌++◌, ◌∷◌, [], OnOk, FitsSigned};
ghost use Rattle.std.specs.Int.{w64};
ghost use Rattle.std.specs.List.{flat_map};
ghost use Rattle.std.specs.Fmt.{decimal, signed_decimal};
ghost use Rattle.gdi_kinds.specs.Names.{IsName};
ghost use Rattle.gdi_kinds.specs.Texts.{IsText};
ghost use Rattle.text_words.specs.Spelling.{quoted_byte, value_text, IsValue, kind_text, dir_text, op_text};

use gdi_kinds::{Dir, Kind, Name, NoMemory, Op, Text, Value};
use itoa::Buffer;

/// Writes a number in decimal.
pub fn print_number(out: &mut Vec<u8>, n: u64) -> Result<(), NoMemory>
    ensures { OnOk result (out.new.items ≡ out.old.items ++ decimal n) }
{
    let mut buffer = Buffer::new();
    Ok(out.extend_from_slice(buffer.format(n).as_bytes())?)
}

/// Writes a name.
pub fn print_name(out: &mut Vec<u8>, name: &Name) -> Result<(), NoMemory>
    ensures printed { OnOk result (out.new.items ≡ out.old.items ++ name.now) }
    ensures name { IsName name.now }
{
    Ok(out.extend_from_slice(name.bytes())?)
}

/// Writes a value.
pub fn print_value(out: &mut Vec<u8>, value: &Value) -> Result<(), NoMemory>
    ensures printed { OnOk result (out.new.items ≡ out.old.items ++ value_text value.now) }
    ensures value { OnOk result (IsValue value.now) }
{
    match value {
        Value::Int(n) => print_int(out, *n),
        Value::Bool(true) => Ok(out.extend_from_slice(b"true")?),
        Value::Bool(false) => Ok(out.extend_from_slice(b"false")?),
        Value::Text(text) => print_text(out, text),
    }
}

fn print_int(out: &mut Vec<u8>, n: i64) -> Result<(), NoMemory>
    ensures printed { OnOk result (out.new.items ≡ out.old.items ++ signed_decimal n) }
    ensures value { FitsSigned w64 n }
{
    let mut buffer = Buffer::new();
    Ok(out.extend_from_slice(buffer.format(n).as_bytes())?)
}

fn print_text(out: &mut Vec<u8>, text: &Text) -> Result<(), NoMemory>
    ensures printed { OnOk result (out.new.items ≡ out.old.items ++ 34 ∷ flat_map quoted_byte text.now ++ 34 ∷ []) }
    ensures value { OnOk result (IsText text.now) }
{
    out.push(b'"')?;
    for byte in text.bytes() {
        if matches!(*byte, b'"' | b'\\') {
            out.push(b'\\')?;
        }
        out.push(*byte)?;
    }
    Ok(out.push(b'"')?)
}

/// The word of a kind.
pub fn kind_word(kind: Kind) -> &'static [u8]
    ensures { result.now ≡ kind_text kind }
{
    match kind {
        Kind::Int => b"int",
        Kind::Bool => b"bool",
        Kind::Text => b"text",
    }
}

/// The word of a direction.
pub fn dir_word(dir: Dir) -> &'static [u8]
    ensures { result.now ≡ dir_text dir }
{
    match dir {
        Dir::Outward => b"out",
        Dir::Inward => b"in",
        Dir::Undirected => b"und",
        Dir::Either => b"any",
    }
}

/// The word of a comparison.
pub fn op_word(op: Op) -> &'static [u8]
    ensures { result.now ≡ op_text op }
{
    match op {
        Op::Eq => b"=",
        Op::Ne => b"<>",
        Op::Lt => b"<",
        Op::Le => b"<=",
        Op::Gt => b">",
        Op::Ge => b">=",
    }
}
