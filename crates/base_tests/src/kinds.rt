use gdi_kinds::{
    Atom, AtomList, Bytes, Call, CallList, CommandWord, Dir, Duplicate, EdgeLine, EdgeList, Kind,
    Line, LineList, Name, NameList, NamedBytes, NumList, Op, Outcome, Pair, PairList, PropLine,
    PropList, Reply, ReplyList, Test, Text, Txn, U32List, Unfit, Value, ValueList,
};
use std::alloc::Global;
use std::test::Fail;

#[test]
fn names(rt: HostRuntime) {
    let tables: [(&[u8], bool); 9] = [
        (b"a", true),
        (b"_", true),
        (b"Knows_9", true),
        (&[b'x'; 63], true),
        (&[b'x'; 64], false),
        (b"", false),
        (b"9a", false),
        (b"a-b", false),
        (b"\xc3\xa9", false),
    ];
    for (bytes, is_name) in tables {
        let name = Name::of(bytes);
        assert_eq!(rt; name.is_some(), is_name, "at {bytes:?}");
        if let Some(name) = name {
            assert_eq!(rt; name.bytes(), bytes);
        }
    }
}

#[test]
fn texts(rt: HostRuntime) {
    let tables: [(&[u8], bool); 9] = [
        (b"", true),
        (b" ~", true),
        (b"\xc3\xa9", true),
        (&[b'x'; 255], true),
        (&[b'x'; 256], false),
        (b"a\x1f", false),
        (b"\x7f", false),
        (b"\x80", false),
        (b"\xc3", false),
    ];
    for (bytes, is_text) in tables {
        match Text::of(rt.alloc(), bytes) {
            Ok(text) => assert!(rt; is_text && text.bytes() == bytes, "at {bytes:?}"),
            Err(unfit) => assert!(rt; !is_text && unfit == Unfit::NotText, "at {bytes:?}"),
        }
    }
}

#[test]
fn lists(rt: HostRuntime) -> Result<(), Fail> {
    let mut list = NumList::new(rt.alloc());
    list.push(7)?;
    list.push(9)?;
    let copied = list.copy(rt.alloc())?;
    assert_eq!(rt; copied.len(), 2);
    assert_eq!(rt; (*copied.at(0), *copied.at(1)), (7, 9));
    assert_eq!(rt;
        NumList::from_vec([1, 2].to_vec(rt.alloc())?).as_slice(),
        [1, 2].as_slice()
    );
    assert_eq!(rt; CommandWord::of(rt.alloc(), "run")?.text(), "run");
    Ok(())
}

#[test]
fn long_lists(rt: HostRuntime) -> Result<(), Fail> {
    let mut list = NumList::new(rt.alloc());
    for n in 0..5000u64 {
        list.push(n)?;
    }
    let copied = list.copy(rt.alloc())?;
    assert_eq!(rt; copied.len(), 5000);
    assert_eq!(rt; *copied.at(4999), 4999);
    Ok(())
}

#[test]
fn sorts_of_calls(rt: HostRuntime) -> Result<(), Fail> {
    let alloc = rt.alloc();
    let calls = every_call(alloc)?;
    let calls = calls.as_slice();
    let writing = calls.iter().filter(|call| call.is_writing()).count();
    let whole = calls.iter().filter(|call| call.is_whole()).count();
    let both = |call: &&Call| call.is_writing() && call.is_whole();
    assert_eq!(rt; calls.iter().filter(both).count(), 0);
    assert_eq!(rt; (calls.len(), writing, whole), (35, 17, 6));
    let mut txn = Txn {
        whole: false,
        calls: CallList::new(alloc),
        aborts: false,
    };
    assert!(rt; !txn.is_writing() && !txn.is_whole() && txn.holds_its_calls());
    txn.calls.push(Call::Parts)?;
    assert!(rt; !txn.is_writing() && !txn.holds_its_calls());
    txn.whole = true;
    assert!(rt; txn.is_whole() && txn.holds_its_calls());
    txn.calls.push(Call::Cut {
        source: 1,
        ordinal: 0,
    })?;
    assert!(rt; txn.is_writing() && !txn.holds_its_calls());
    Ok(())
}

#[test]
fn copies_of_calls(rt: HostRuntime) -> Result<(), Fail> {
    let alloc = rt.alloc();
    let txn = Txn {
        whole: false,
        calls: every_call(alloc)?,
        aborts: true,
    };
    let copied = txn.copy(alloc)?;
    assert_eq!(rt;
        format!(in alloc; "{copied:?}")?,
        format!(in alloc; "{txn:?}")?
    );
    Ok(())
}

#[test]
fn copies_of_outcomes(rt: HostRuntime) -> Result<(), Fail> {
    let alloc = rt.alloc();
    let mut lines = LineList::new(alloc);
    for outcome in [
        Outcome::Wrote {
            k: 3,
            replies: every_reply(alloc)?,
        },
        Outcome::Read {
            place: 4,
            replies: every_reply(alloc)?,
        },
        Outcome::Aborted,
        Outcome::Full { rank: 2, place: 5 },
    ] {
        lines.push(Line {
            section: 1,
            txn: 2,
            outcome,
        })?;
    }
    let copied = lines.copy(alloc)?;
    assert_eq!(rt;
        format!(in alloc; "{copied:?}")?,
        format!(in alloc; "{lines:?}")?
    );
    Ok(())
}

#[test]
fn copies_of_files_and_words(rt: HostRuntime) -> Result<(), Fail> {
    let alloc = rt.alloc();
    let file = NamedBytes {
        name: Bytes::from_vec(b"first.gdi".to_vec(alloc)?),
        bytes: Bytes::from_vec(b"section".to_vec(alloc)?),
    };
    let copied = file.copy(alloc)?;
    assert_eq!(rt; copied.name.as_slice(), b"first.gdi".as_slice());
    assert_eq!(rt; copied.bytes.as_slice(), b"section".as_slice());
    let word = CommandWord::of(alloc, "--blocks")?;
    assert_eq!(rt; word.copy(alloc)?.text(), "--blocks");
    let numbers = U32List::from_vec([1, 2].to_vec(alloc)?);
    assert_eq!(rt; numbers.copy(alloc)?.as_slice(), [1, 2].as_slice());
    Ok(())
}

fn knows() -> Result<Name, Fail> {
    Ok(Name::of(b"KNOWS").ok_or("no name")?)
}

// One value of each kind.
fn every_value(alloc: Global) -> Result<ValueList, Fail> {
    let mut values = ValueList::new(alloc);
    values.push(Value::Int(-5))?;
    values.push(Value::Bool(true))?;
    values.push(Value::Text(Text::of(alloc, &[b'x'; 255])?))?;
    Ok(values)
}

fn text_value(alloc: Global) -> Result<Value, Fail> {
    Ok(Value::Text(Text::of(alloc, b"Ada")?))
}

// A constraint with one atom of each sort.
fn every_atom(alloc: Global) -> Result<Test, Fail> {
    let mut atoms = AtomList::new(alloc);
    atoms.push(Atom::Has(knows()?))?;
    atoms.push(Atom::Lacks(knows()?))?;
    atoms.push(Atom::Prop(knows()?, Op::Le, text_value(alloc)?))?;
    let mut test = Test::new(alloc);
    test.push(atoms)?;
    Ok(test)
}

// One call of each sort; those that may have a constraint have one.
fn every_call(alloc: Global) -> Result<CallList, Fail> {
    let mut calls = CallList::new(alloc);
    push_calls_on_names(&mut calls)?;
    push_calls_on_vertices(alloc, &mut calls)?;
    push_calls_on_ends(&mut calls)?;
    push_calls_on_edges(alloc, &mut calls)?;
    push_questions(alloc, &mut calls)?;
    push_whole_questions(&mut calls)?;
    Ok(calls)
}

fn push_calls_on_names(calls: &mut CallList) -> Result<(), Fail> {
    let (id, name) = (5, knows()?);
    let kind = Kind::Bool;
    for call in [
        Call::NewLabel { name },
        Call::NewType {
            name,
            kind,
            many: true,
        },
        Call::Vertex { id },
        Call::Has { id },
        Call::DropVertex { id },
        Call::Tag { id, label: name },
        Call::Untag { id, label: name },
        Call::Tags { id },
    ] {
        calls.push(call)?;
    }
    Ok(())
}

fn push_calls_on_vertices(alloc: Global, calls: &mut CallList) -> Result<(), Fail> {
    let (id, prop) = (5, knows()?);
    let value = text_value(alloc)?;
    calls.push(Call::Set { id, prop, value })?;
    let value = text_value(alloc)?;
    calls.push(Call::Add { id, prop, value })?;
    calls.push(Call::Get { id, prop })?;
    calls.push(Call::Unset { id, prop })?;
    calls.push(Call::Props { id })?;
    Ok(())
}

fn push_calls_on_ends(calls: &mut CallList) -> Result<(), Fail> {
    let (source, target, ordinal) = (6, 7, 8);
    let label = Some(knows()?);
    for call in [
        Call::Edge {
            source,
            target,
            label,
        },
        Call::UEdge {
            source,
            target,
            label: None,
        },
        Call::Cut { source, ordinal },
        Call::Target { source, ordinal },
    ] {
        calls.push(call)?;
    }
    Ok(())
}

fn push_calls_on_edges(alloc: Global, calls: &mut CallList) -> Result<(), Fail> {
    let (source, ordinal, name) = (6, 8, knows()?);
    let (label, prop) = (name, name);
    for call in [
        Call::ETag {
            source,
            ordinal,
            label,
        },
        Call::EUntag {
            source,
            ordinal,
            label,
        },
        Call::ETags { source, ordinal },
        Call::EGet {
            source,
            ordinal,
            prop,
        },
        Call::EUnset {
            source,
            ordinal,
            prop,
        },
        Call::EProps { source, ordinal },
    ] {
        calls.push(call)?;
    }
    let value = text_value(alloc)?;
    calls.push(Call::ESet {
        source,
        ordinal,
        prop,
        value,
    })?;
    let value = text_value(alloc)?;
    calls.push(Call::EAdd {
        source,
        ordinal,
        prop,
        value,
    })?;
    Ok(())
}

fn push_questions(alloc: Global, calls: &mut CallList) -> Result<(), Fail> {
    let (id, dir) = (5, Dir::Undirected);
    let test = Some(every_atom(alloc)?);
    calls.push(Call::Edges { id, dir, test })?;
    let dir = Dir::Inward;
    calls.push(Call::Near { id, dir })?;
    let dir = Dir::Outward;
    calls.push(Call::Degree { id, dir })?;
    let (label, test) = (knows()?, Some(every_atom(alloc)?));
    calls.push(Call::Find { label, test })?;
    Ok(())
}

fn push_whole_questions(calls: &mut CallList) -> Result<(), Fail> {
    let id = 5;
    for call in [
        Call::Hood { id, depth: 3 },
        Call::Levels { id },
        Call::Parts,
        Call::Scan {
            label: None,
            test: None,
        },
        Call::Vertices,
        Call::Arcs,
    ] {
        calls.push(call)?;
    }
    Ok(())
}

// One reply of each sort.
fn every_reply(alloc: Global) -> Result<ReplyList, Fail> {
    let mut replies = ReplyList::new(alloc);
    for reply in [
        Reply::Done,
        Reply::Yes,
        Reply::No,
        Reply::Exists,
        Reply::NoVertex(7),
        Reply::NoEdge,
        Reply::NoLabel,
        Reply::NoType,
        Reply::NoProp,
        Reply::WrongKind,
        Reply::NotMany,
        Reply::HasLabel,
        Reply::LacksLabel,
        Reply::TooLarge,
        Reply::EdgeIs(5, 2),
        Reply::Count(6),
    ] {
        replies.push(reply)?;
    }
    push_listings(alloc, &mut replies)?;
    push_numbers(alloc, &mut replies)?;
    replies.push(Reply::Value(text_value(alloc)?))?;
    replies.push(Reply::Values(every_value(alloc)?))?;
    Ok(replies)
}

fn push_listings(alloc: Global, replies: &mut ReplyList) -> Result<(), Fail> {
    let mut names = NameList::new(alloc);
    names.push(knows()?)?;
    replies.push(Reply::Labels(names))?;
    let mut props = PropList::new(alloc);
    let (name, value) = (knows()?, text_value(alloc)?);
    props.push(PropLine { name, value })?;
    replies.push(Reply::Props(props))?;
    let mut edges = EdgeList::new(alloc);
    edges.push(EdgeLine {
        inward: false,
        undirected: true,
        source: 1,
        ordinal: 0,
        target: 2,
    })?;
    replies.push(Reply::Edges(edges))?;
    Ok(())
}

fn push_numbers(alloc: Global, replies: &mut ReplyList) -> Result<(), Fail> {
    let mut ids = NumList::new(alloc);
    ids.push(9)?;
    replies.push(Reply::Ids(ids))?;
    let mut pairs = PairList::new(alloc);
    pairs.push(Pair { id: 4, number: 3 })?;
    replies.push(Reply::Levels(pairs.copy(alloc)?))?;
    replies.push(Reply::Parts(pairs))?;
    Ok(())
}
