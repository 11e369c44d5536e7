ghost use Rattle.std.specs.Prelude.{◌≡◌, ◌≢◌, ◌≤◌, IfOk, IsOkAnd, is_some, length};
ghost use Rattle.std.specs.List.{position};
ghost use Rattle.std.specs.Str.{bytes_eq};
ghost use Rattle.rma_layout.specs.Placement.{metadata};
ghost use Rattle.rma_layout.specs.declared.limits.TheConstants.{MOST_WORDS};
ghost use Rattle.object_store.specs.declared.phase.Phase.TheVariants.{Idle, Writing};
ghost use Rattle.object_store.specs.Works.{At, Nowhere, Works};
ghost use Rattle.holder_codec.specs.Meta.{IsMetaHolder, meta_words};
ghost use Rattle.held_objects.specs.Held.{FindsHolder};
ghost use Rattle.held_objects.specs.Changes.{IfMade, SettlesChange, any};
ghost use Rattle.meta_tables.specs.Names.{IsTypeOf, KnowsNames, label_number, new_label, new_type, type_number};

use crate::prop_type::PropType;
use gdi_kinds::{Name, NoMemory, Reply};
use held_objects::{Change, look, settle};
use holder_codec::{KeepsGraph, MetaHolder, TypeLine};
use object_store::Store;
use rma_layout::DPtr;
use std::alloc::Global;

/// The names as the transaction finds them.
pub(crate) fn read_names<L: KeepsGraph, S: Store<L>>(
    alloc: Global,
    store: &mut S,
) -> Result<MetaHolder, S::Refused>
    requires begun { (S.state store.old).phase ≢ Idle }
    requires names { KnowsNames any (S.state store.old) }
    ensures works { Works L.fits S.state S.explains S.says (At metadata) Nowhere store.old store.new result }
    ensures found { IfOk result (λ meta. FindsHolder IsMetaHolder meta_words metadata (S.state store.old) (S.state store.new) meta) }
    ensures few { IfOk result (λ meta. length (meta_words meta) ≤ MOST_WORDS) }
{
    let geometry = store.geometry();
    geometry.keeps_ranges();
    let meta = look(alloc, store, DPtr::new(0, 0))?;
    Ok(meta)
}

/// Gives the metadata object the names that were made, or replies why none were.
pub(crate) fn write_names<L: KeepsGraph, S: Store<L>>(
    alloc: Global,
    store: &mut S,
    made: Result<Change<MetaHolder>, NoMemory>,
) -> Result<Reply, S::Refused>
    requires begun { (S.state store.old).phase ≡ Writing }
    requires is { IfOk made (IfMade IsMetaHolder) }
    ensures works { Works L.fits S.state S.explains S.says (At metadata) Nowhere store.old store.new result }
    ensures settled { IfOk result (λ reply. IsOkAnd made (λ change.
        SettlesChange meta_words metadata (S.state store.old) (S.state store.new) change reply)) }
{
    let geometry = store.geometry();
    geometry.keeps_ranges();
    settle(alloc, store, DPtr::new(0, 0), made)
}

/// The number of a label.
pub(crate) fn label_number(meta: &MetaHolder, name: &Name) -> Option<u32>
    requires { length (meta_words meta.now) ≤ MOST_WORDS }
    ensures { result ≡ label_number name.now meta.now }
{
    match label_position(meta.labels.as_slice(), name) {
        Some(place) => Some(place as u32),
        None => None,
    }
}

/// Where a name stands in a list, from 0.
fn label_position(labels: &[Name], name: &Name) -> Option<usize>
    ensures { result ≡ position (bytes_eq name.now) labels.now }
{
    labels.iter().position(|label| *name == *label)
}

/// The property type of a name.
pub(crate) fn type_of(meta: &MetaHolder, name: &Name) -> Option<PropType>
    requires { length (meta_words meta.now) ≤ MOST_WORDS }
    ensures { IsTypeOf name.now result meta.now }
{
    match type_position(meta.types.as_slice(), name) {
        Some(place) => {
            let line = meta.types.at(place);
            Some(PropType {
                number: place as u32,
                kind: line.kind,
                many: line.many,
            })
        }
        None => None,
    }
}

/// Where the type of a name stands in a list, from 0.
fn type_position(types: &[TypeLine], name: &Name) -> Option<usize>
    ensures { result ≡ position (λ line. bytes_eq name.now line.name) types.now }
{
    types.iter().position(|line| *name == line.name)
}

fn has_label(meta: &MetaHolder, name: &Name) -> bool
    ensures { result ≡ is_some (label_number name.now meta.now) }
{
    label_position(meta.labels.as_slice(), name).is_some()
}

fn has_type(meta: &MetaHolder, name: &Name) -> bool
    ensures { result ≡ is_some (type_number name.now meta.now) }
{
    type_position(meta.types.as_slice(), name).is_some()
}

/// The names with a label more, behind those that are there.
pub(crate) fn with_label(meta: MetaHolder, name: &Name) -> Result<Change<MetaHolder>, NoMemory>
    requires { IsMetaHolder meta }
    ensures made { IfOk result (λ change. change ≡ new_label name.now meta) }
    ensures is { IfOk result (IfMade IsMetaHolder) }
{
    if has_label(&meta, name) {
        return Ok(Change::Refused(Reply::Exists));
    }
    let _ = name.bytes();
    let MetaHolder { mut labels, types } = meta;
    labels.push(*name)?;
    Ok(Change::Made(MetaHolder { labels, types }))
}

/// The names with a property type more, behind those that are there.
pub(crate) fn with_type(meta: MetaHolder, line: TypeLine) -> Result<Change<MetaHolder>, NoMemory>
    requires { IsMetaHolder meta }
    ensures made { IfOk result (λ change. change ≡ new_type line meta) }
    ensures is { IfOk result (IfMade IsMetaHolder) }
{
    if has_type(&meta, &line.name) {
        return Ok(Change::Refused(Reply::Exists));
    }
    let _ = line.name.bytes();
    let MetaHolder { labels, mut types } = meta;
    types.push(line)?;
    Ok(Change::Made(MetaHolder { labels, types }))
}
