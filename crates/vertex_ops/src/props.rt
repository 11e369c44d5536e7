ghost use Rattle.std.specs.Prelude.{◌≡◌, not, IfOk, nat_lt, ◌==◌};
ghost use Rattle.std.specs.List.{list_any, position, position_or_len};
ghost use Rattle.graph_model.specs.WellFormed.{IsValue};
ghost use Rattle.holder_codec.specs.Vertex.{IsVertexHolder};
ghost use Rattle.held_objects.specs.Changes.{IfMade};
ghost use Rattle.vertex_ops.specs.Holders.{with_value, without_number, without_value};

use gdi_kinds::{Duplicate, NoMemory, Reply, Value};
use held_objects::Change;
use holder_codec::{HeldProp, HeldProps, VertexHolder};
use std::alloc::Global;

/// A vertex with one value of a type that isn't marked, in the place of those that it had.
pub(crate) fn with_value(
    alloc: Global,
    holder: VertexHolder,
    number: u32,
    value: &Value,
) -> Result<Change<VertexHolder>, NoMemory>
    requires { IsVertexHolder holder }
    ensures made { IfOk result (λ change. change ≡ with_value number value.now holder) }
    ensures is { IfOk result (IfMade IsVertexHolder) }
{
    let VertexHolder {
        id,
        next,
        labels,
        props,
        edges,
    } = holder;
    let value = copied(alloc, value)?;
    let mut props = left_out(props, number).into_vec();
    let place = place_of(props.as_slice(), number);
    props.insert(
        place,
        HeldProp {
            number,
            many: false,
            value,
        },
    )?;
    let props = HeldProps::from_vec(props);
    Ok(Change::Made(VertexHolder {
        id,
        next,
        labels,
        props,
        edges,
    }))
}

/// A vertex without the values of a type.
pub(crate) fn without_value(holder: VertexHolder, number: u32) -> Change<VertexHolder>
    requires { IsVertexHolder holder }
    ensures made { result ≡ without_value number holder }
    ensures is { IfMade IsVertexHolder result }
{
    let VertexHolder {
        id,
        next,
        labels,
        props,
        edges,
    } = holder;
    if !is_among(props.as_slice(), number) {
        return Change::Refused(Reply::NoProp);
    }
    let props = left_out(props, number);
    Change::Made(VertexHolder {
        id,
        next,
        labels,
        props,
        edges,
    })
}

fn copied(alloc: Global, value: &Value) -> Result<Value, NoMemory>
    ensures same { IfOk result (λ copied. copied ≡ value.now) }
    ensures value { IfOk result IsValue }
{
    match value {
        Value::Int(int) => Ok(Value::Int(*int)),
        Value::Bool(bool) => Ok(Value::Bool(*bool)),
        Value::Text(text) => {
            let _bytes = text.bytes();
            Ok(Value::Text(text.copy(alloc)?))
        }
    }
}

fn is_among(props: &[HeldProp], number: u32) -> bool
    ensures { result ≡ list_any (λ one. one.number == number) props.now }
{
    props.iter().any(|one| one.number == number)
}

/// Where the first value of a greater type stands, or else the end.
fn place_of(props: &[HeldProp], number: u32) -> usize
    ensures { result ≡ position_or_len (λ one. nat_lt number one.number) props.now }
{
    first_above(props, number).unwrap_or(props.len())
}

fn first_above(props: &[HeldProp], number: u32) -> Option<usize>
    ensures { result ≡ position (λ one. nat_lt number one.number) props.now }
{
    props.iter().position(|one| one.number > number)
}

fn left_out(props: HeldProps, number: u32) -> HeldProps
    ensures { result ≡ without_number number props }
{
    let mut props = props.into_vec();
    props.retain(|one| one.number != number);
    HeldProps::from_vec(props)
}
