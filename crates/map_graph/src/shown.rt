ghost use Rattle.std.specs.Prelude.{◌≡◌, ◌<◌, ◌++◌, [], map, length, IfOk, OnOk};
ghost use Rattle.std.specs.List.{AllByRecursion, flat_map};
ghost use Rattle.std.specs.Option.{option_map_or, unwrap_or};
ghost use Rattle.graph_model.specs.Lookups.{lines_of_values};
ghost use Rattle.graph_model.specs.Maps.{item_at};

use gdi_kinds::{Duplicate, ListOf, Name, NameList, NoMemory, PropLine, PropList, ValueList};
use graph_parts::{HeldProps, HeldType};
use std::alloc::Global;
use std::collections::BTreeSet;

/// The names of labels by their numbers.
pub(crate) fn names_of(
    alloc: Global,
    names: &NameList,
    labels: &BTreeSet<u32, Global>,
) -> Result<NameList, NoMemory>
    requires { AllByRecursion (λ n. n < length names.now) labels.now.keys }
    ensures { IfOk result (λ shown. shown ≡ map (λ n. unwrap_or (item_at names.now n) []) labels.now.keys) }
{
    let mut shown = NameList::new(alloc);
    for label in labels {
        shown.push(*names.at(*label as usize))?;
    }
    Ok(shown)
}

/// A line for each value of properties.
pub(crate) fn lines_of_props(
    alloc: Global,
    types: &ListOf<HeldType>,
    props: &HeldProps,
) -> Result<PropList, NoMemory>
    requires { AllByRecursion (λ entry. entry.0 < length types.now) props.now }
    ensures { IfOk result (λ lines. lines ≡ flat_map (λ entry. lines_of_values
        (option_map_or (λ ty. ty.name) (item_at types.now entry.0) []) entry.1) props.now) }
{
    let mut lines = PropList::new(alloc);
    for (ty, values) in props.values().as_slice() {
        push_values(alloc, &mut lines, types.at(*ty as usize).name(), values)?;
    }
    Ok(lines)
}

// Puts a line for each value behind others.
fn push_values(
    alloc: Global,
    lines: &mut PropList,
    name: &Name,
    values: &ValueList,
) -> Result<(), NoMemory>
    ensures { OnOk result (lines.new ≡ lines.old ++ lines_of_values name.now values.now) }
{
    for value in values.as_slice() {
        lines.push(PropLine {
            name: *name,
            value: value.copy(alloc)?,
        })?;
    }
    Ok(())
}
