ghost use Rattle.std.specs.Prelude.{◌≡◌, ◌&&◌, false};
ghost use Rattle.std.specs.List.{list_all, list_any};
ghost use Rattle.std.specs.Option.{option_map_or};
ghost use Rattle.std.specs.Str.{bytes_eq};
ghost use Rattle.gdi_kinds.specs.Constraint.{compare_values, holds_of, passes, passes_atom};

use crate::compare::{compare_values, holds_of};
use gdi_kinds::{Atom, AtomList, Name, NameList, Op, PropLine, PropList, Test, Value};

/// Whether labels and properties pass a constraint: all atoms of one of its alternatives pass. So none passes a
/// constraint without alternatives, and all pass one that has an alternative without atoms.
///
/// A property with several values has a line for each, and passes where one of them does. A property that is absent
/// passes no comparison, and neither does a value of another kind than the constant. It takes no memory.
pub fn passes(test: &Test, labels: &NameList, props: &PropList) -> bool
    ensures { result ≡ passes test.now labels.now props.now }
{
    test.as_slice()
        .iter()
        .any(|atoms| all_pass(atoms, labels, props))
}

fn all_pass(atoms: &AtomList, labels: &NameList, props: &PropList) -> bool
    ensures { result ≡ list_all (passes_atom labels.now props.now) atoms.now }
{
    atoms
        .as_slice()
        .iter()
        .all(|atom| passes_atom(atom, labels, props))
}

fn passes_atom(atom: &Atom, labels: &NameList, props: &PropList) -> bool
    ensures { result ≡ passes_atom labels.now props.now atom.now }
{
    match atom {
        Atom::Has(name) => is_among(name, labels),
        Atom::Lacks(name) => !is_among(name, labels),
        Atom::Prop(name, op, constant) => some_value_compares_so(props, name, *op, constant),
    }
}

fn some_value_compares_so(props: &PropList, name: &Name, op: Op, constant: &Value) -> bool
    ensures { result ≡ list_any (λ line. bytes_eq name.now line.name
        && option_map_or (holds_of op) (compare_values line.value constant.now) false) props.now }
{
    props
        .as_slice()
        .iter()
        .any(|line| compares_so(line, name, op, constant))
}

fn is_among(name: &Name, labels: &NameList) -> bool
    ensures { result ≡ list_any (bytes_eq name.now) labels.now }
{
    labels.as_slice().iter().any(|label| is_same(name, label))
}

fn is_same(name: &Name, other: &Name) -> bool
    ensures { result ≡ bytes_eq name.now other.now }
{
    name.bytes() == other.bytes()
}

// Whether a value is one of this property, and compares so with the constant.
fn compares_so(line: &PropLine, name: &Name, op: Op, constant: &Value) -> bool
    ensures { result ≡ (bytes_eq name.now line.now.name
        && option_map_or (holds_of op) (compare_values line.now.value constant.now) false) }
{
    is_same(name, &line.name)
        && compare_values(&line.value, constant).is_some_and(|order| holds_of(op, order))
}
