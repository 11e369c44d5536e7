ghost use Rattle.std.specs.Prelude.{◌≡◌, OnOk};
ghost use Rattle.rma_layout.specs.Shape.{Shape};
ghost use Rattle.object_store.specs.declared.phase.Phase.TheVariants.{Idle, Writing};
ghost use Rattle.held_objects.specs.Changes.{any};
ghost use Rattle.meta_tables.specs.Names.{KnowsNames};

use crate::keeping::Keeping;
use gdi_kinds::{Kind, Name, Reply};
use meta_tables::{
    add_label, add_type, knowledge_stays, label, label_name, names_are_those_of_the_graph, prop,
    prop_name,
};
use object_store::{PlainStore, Store};
use object_words::Words;
use rma_layout::{DPtr, Geometry};
use std::alloc::Global;
use std::test::Fail;

/// The replies to a label and a marked type of a name, each made twice.
#[derive(Debug, Drop)]
struct Replies {
    label: Reply,
    label_again: Reply,
    typed: Reply,
    typed_again: Reply,
}

fn add<S: Store<Keeping>>(alloc: Global, store: &mut S, name: &Name) -> Result<Replies, S::Refused>
    requires begun { (S.state store.old).phase ≡ Writing }
    requires names { KnowsNames any (S.state store.old) }
    ensures begun { OnOk result ((S.state store.new).phase ≡ Writing) }
    ensures names { OnOk result (KnowsNames any (S.state store.new)) }
{
    let label = add_label(alloc, store, name)?;
    let label_again = add_label(alloc, store, name)?;
    let typed = add_type(alloc, store, name, Kind::Int, true)?;
    let typed_again = add_type(alloc, store, name, Kind::Int, true)?;
    Ok(Replies {
        label,
        label_again,
        typed,
        typed_again,
    })
}

/// The name of the label of a name, where there is one.
fn label_of<S: Store<Keeping>>(
    alloc: Global,
    store: &mut S,
    name: &Name,
) -> Result<Option<Name>, S::Refused>
    requires begun { (S.state store.old).phase ≡ Writing }
    requires names { KnowsNames any (S.state store.old) }
    ensures begun { OnOk result ((S.state store.new).phase ≡ Writing) }
    ensures names { OnOk result (KnowsNames any (S.state store.new)) }
{
    let Some(number) = label(alloc, store, name)? else {
        return Ok(None);
    };
    let found = label_name(alloc, store, number)?;
    Ok(Some(found))
}

/// The name, the kind and the mark of the type of a name, where there is one.
fn type_of<S: Store<Keeping>>(
    alloc: Global,
    store: &mut S,
    name: &Name,
) -> Result<Option<(Name, Kind, bool)>, S::Refused>
    requires begun { (S.state store.old).phase ≡ Writing }
    requires names { KnowsNames any (S.state store.old) }
    ensures begun { OnOk result ((S.state store.new).phase ≡ Writing) }
    ensures names { OnOk result (KnowsNames any (S.state store.new)) }
{
    let Some(one) = prop(alloc, store, name)? else {
        return Ok(None);
    };
    let found = prop_name(alloc, store, one.number)?;
    Ok(Some((found, one.kind, one.many)))
}

/// The words of the metadata object.
fn words_of_names<S: Store<Keeping>>(store: &mut S) -> Result<Words, S::Refused>
    requires { (S.state store.old).phase ≡ Writing }
    ensures { OnOk result ((S.state store.new).phase ≡ Writing) }
{
    let geometry = store.geometry();
    geometry.keeps_ranges();
    let words = store.read(DPtr::new(0, 0))?;
    Ok(words)
}

/// What is found of a name before and after it is added, and the words of the metadata object then.
#[derive(Debug, Drop)]
struct Findings {
    before: Option<Name>,
    type_before: Option<(Name, Kind, bool)>,
    replies: Replies,
    after: Option<Name>,
    type_after: Option<(Name, Kind, bool)>,
    words: Words,
}

fn find<S: Store<Keeping>>(
    alloc: Global,
    store: &mut S,
    name: &Name,
) -> Result<Findings, S::Refused>
    requires { (S.state store.old).phase ≡ Idle }
{
    store.begin(true)?;
    let before = label_of(alloc, store, name)?;
    let type_before = type_of(alloc, store, name)?;
    let replies = add(alloc, store, name)?;
    let after = label_of(alloc, store, name)?;
    let type_after = type_of(alloc, store, name)?;
    let words = words_of_names(store)?;
    store.abort();
    Ok(Findings {
        before,
        type_before,
        replies,
        after,
        type_after,
        words,
    })
}

#[test]
fn names(rt: HostRuntime) -> Result<(), Fail> {
    let person = Name::of(b"Person").ok_or("a name")?;
    let mut store = PlainStore::<Keeping>::new(rt.alloc(), Geometry::standard())?;
    let Ok(found) = find(rt.alloc(), &mut store, &person) else {
        return Err("refused".into());
    };
    assert_eq!(rt;
        found.words.as_slice(),
        [1, 1, 6, 0x6e6f_7372_6550, 4, 6, 0x6e6f_7372_6550].as_slice()
    );
    assert_eq!(rt; found.before, None);
    assert_eq!(rt; found.type_before, None);
    assert_eq!(rt; found.after, Some(person));
    assert_eq!(rt; found.type_after, Some((person, Kind::Int, true)));
    assert!(rt; matches!(&found.replies.label, Reply::Done));
    assert!(rt; matches!(&found.replies.label_again, Reply::Exists));
    assert!(rt; matches!(&found.replies.typed, Reply::Done));
    assert!(rt; matches!(&found.replies.typed_again, Reply::Exists));
    Ok(())
}

#[test]
fn laws(_rt: HostRuntime) {
    names_are_those_of_the_graph();
    knowledge_stays::<Keeping>();
}
