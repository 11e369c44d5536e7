ghost use Rattle.std.specs.Prelude.{◌≡◌, ◌++◌, ◌∷◌, [], OnOk};
ghost use Rattle.std.specs.List.{flat_map, AllByRecursion};
ghost use Rattle.text_words.specs.Spelling.{word, spaced, IsPart};
ghost use Rattle.script_text.specs.CallLines.{line_of_call, parts_of};
ghost use Rattle.script_text.specs.Shown.{field_parts, fields_before, end_parts};

use gdi_kinds::{Call, Dir, Kind, Name, NoMemory, Test, Value};
use text_words::{dir_word, kind_word, print_name, print_number, print_test, print_value};

/// Writes the line of a call, without its LF.
pub(crate) fn print_call(out: &mut Vec<u8>, call: &Call) -> Result<(), NoMemory>
    ensures printed { OnOk result (out.new.items ≡ out.old.items ++ line_of_call call.now) }
    ensures parts { OnOk result (AllByRecursion IsPart (parts_of call.now)) }
{
    let (word, fields, end) = fields_of(call);
    out.extend_from_slice(word)?;
    for field in &fields {
        print_field(out, *field)?;
    }
    print_end(out, end)
}

/// One word of a call's line, or none.
#[derive(Clone, Copy)]
enum Field<'a> {
    Nothing,
    Id(u64),
    Name(&'a Name),
    Value(&'a Value),
    Kind(Kind),
    Dir(Dir),
    Scope(&'a Option<Name>),
}

/// How a call's line ends behind its fields.
#[derive(Clone, Copy)]
enum End<'a> {
    Here,
    Many(bool),
    Label(&'a Option<Name>),
    Test(&'a Option<Test>),
}

use Field::{Id, Nothing, Scope};

// The word of a call's line, the fields behind it, and its end.
fn fields_of(call: &Call) -> (&'static [u8], [Field<'_>; 4], End<'_>)
    ensures { parts_of call.now ≡ word result.0.now ∷ fields_before result.1 (end_parts result.2) }
{
    match call {
        Call::NewLabel { name } => (
            b"newlabel",
            [Field::Name(name), Nothing, Nothing, Nothing],
            End::Here,
        ),
        Call::NewType { name, kind, many } => (
            b"newtype",
            [Field::Name(name), Field::Kind(*kind), Nothing, Nothing],
            End::Many(*many),
        ),
        Call::Vertex { id } => (b"vertex", [Id(*id), Nothing, Nothing, Nothing], End::Here),
        Call::Has { id } => (b"has", [Id(*id), Nothing, Nothing, Nothing], End::Here),
        Call::DropVertex { id } => (b"drop", [Id(*id), Nothing, Nothing, Nothing], End::Here),
        Call::Tag { id, label } => (
            b"tag",
            [Id(*id), Field::Name(label), Nothing, Nothing],
            End::Here,
        ),
        Call::Untag { id, label } => (
            b"untag",
            [Id(*id), Field::Name(label), Nothing, Nothing],
            End::Here,
        ),
        Call::Tags { id } => (b"tags", [Id(*id), Nothing, Nothing, Nothing], End::Here),
        Call::Set { id, prop, value } => (
            b"set",
            [Id(*id), Field::Name(prop), Field::Value(value), Nothing],
            End::Here,
        ),
        Call::Add { id, prop, value } => (
            b"add",
            [Id(*id), Field::Name(prop), Field::Value(value), Nothing],
            End::Here,
        ),
        Call::Get { id, prop } => (
            b"get",
            [Id(*id), Field::Name(prop), Nothing, Nothing],
            End::Here,
        ),
        Call::Unset { id, prop } => (
            b"unset",
            [Id(*id), Field::Name(prop), Nothing, Nothing],
            End::Here,
        ),
        Call::Props { id } => (b"props", [Id(*id), Nothing, Nothing, Nothing], End::Here),
        Call::Edge {
            source,
            target,
            label,
        } => (
            b"edge",
            [Id(*source), Id(*target), Nothing, Nothing],
            End::Label(label),
        ),
        Call::UEdge {
            source,
            target,
            label,
        } => (
            b"uedge",
            [Id(*source), Id(*target), Nothing, Nothing],
            End::Label(label),
        ),
        Call::Cut { source, ordinal } => (
            b"cut",
            [Id(*source), Id(*ordinal), Nothing, Nothing],
            End::Here,
        ),
        Call::Target { source, ordinal } => (
            b"target",
            [Id(*source), Id(*ordinal), Nothing, Nothing],
            End::Here,
        ),
        Call::ETag {
            source,
            ordinal,
            label,
        } => (
            b"etag",
            [Id(*source), Id(*ordinal), Field::Name(label), Nothing],
            End::Here,
        ),
        Call::EUntag {
            source,
            ordinal,
            label,
        } => (
            b"euntag",
            [Id(*source), Id(*ordinal), Field::Name(label), Nothing],
            End::Here,
        ),
        Call::ETags { source, ordinal } => (
            b"etags",
            [Id(*source), Id(*ordinal), Nothing, Nothing],
            End::Here,
        ),
        Call::ESet {
            source,
            ordinal,
            prop,
            value,
        } => (
            b"eset",
            [
                Id(*source),
                Id(*ordinal),
                Field::Name(prop),
                Field::Value(value),
            ],
            End::Here,
        ),
        Call::EAdd {
            source,
            ordinal,
            prop,
            value,
        } => (
            b"eadd",
            [
                Id(*source),
                Id(*ordinal),
                Field::Name(prop),
                Field::Value(value),
            ],
            End::Here,
        ),
        Call::EGet {
            source,
            ordinal,
            prop,
        } => (
            b"eget",
            [Id(*source), Id(*ordinal), Field::Name(prop), Nothing],
            End::Here,
        ),
        Call::EUnset {
            source,
            ordinal,
            prop,
        } => (
            b"eunset",
            [Id(*source), Id(*ordinal), Field::Name(prop), Nothing],
            End::Here,
        ),
        Call::EProps { source, ordinal } => (
            b"eprops",
            [Id(*source), Id(*ordinal), Nothing, Nothing],
            End::Here,
        ),
        Call::Edges { id, dir, test } => (
            b"edges",
            [Id(*id), Field::Dir(*dir), Nothing, Nothing],
            End::Test(test),
        ),
        Call::Near { id, dir } => (
            b"near",
            [Id(*id), Field::Dir(*dir), Nothing, Nothing],
            End::Here,
        ),
        Call::Degree { id, dir } => (
            b"degree",
            [Id(*id), Field::Dir(*dir), Nothing, Nothing],
            End::Here,
        ),
        Call::Find { label, test } => (
            b"find",
            [Field::Name(label), Nothing, Nothing, Nothing],
            End::Test(test),
        ),
        Call::Hood { id, depth } => (b"hood", [Id(*id), Id(*depth), Nothing, Nothing], End::Here),
        Call::Levels { id } => (b"levels", [Id(*id), Nothing, Nothing, Nothing], End::Here),
        Call::Parts => (b"parts", [Nothing, Nothing, Nothing, Nothing], End::Here),
        Call::Scan { label, test } => (
            b"scan",
            [Scope(label), Nothing, Nothing, Nothing],
            End::Test(test),
        ),
        Call::Vertices => (b"vertices", [Nothing, Nothing, Nothing, Nothing], End::Here),
        Call::Arcs => (b"arcs", [Nothing, Nothing, Nothing, Nothing], End::Here),
    }
}

fn print_field(out: &mut Vec<u8>, field: Field<'_>) -> Result<(), NoMemory>
    ensures printed { OnOk result (out.new.items ≡ out.old.items ++ flat_map spaced (field_parts field.entry)) }
    ensures parts { OnOk result (AllByRecursion IsPart (field_parts field.entry)) }
{
    if let Nothing = field {
        return Ok(());
    }
    out.push(b' ')?;
    match field {
        Nothing => Ok(()),
        Id(n) => print_number(out, n),
        Field::Name(name) | Scope(Some(name)) => print_name(out, name),
        Field::Value(value) => print_value(out, value),
        Field::Kind(kind) => Ok(out.extend_from_slice(kind_word(kind))?),
        Field::Dir(dir) => Ok(out.extend_from_slice(dir_word(dir))?),
        Scope(None) => Ok(out.push(b'*')?),
    }
}

fn print_end(out: &mut Vec<u8>, end: End<'_>) -> Result<(), NoMemory>
    ensures printed { OnOk result (out.new.items ≡ out.old.items ++ flat_map spaced (end_parts end.entry)) }
    ensures parts { OnOk result (AllByRecursion IsPart (end_parts end.entry)) }
{
    match end {
        End::Here | End::Many(false) | End::Label(None) | End::Test(None) => Ok(()),
        End::Many(true) => Ok(out.extend_from_slice(b" many")?),
        End::Label(Some(label)) => {
            out.push(b' ')?;
            print_name(out, label)
        }
        End::Test(Some(test)) => print_test(out, test),
    }
}
