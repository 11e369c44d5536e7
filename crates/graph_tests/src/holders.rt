ghost use Rattle.rma_layout.specs.Shape.{Shape};
ghost use Rattle.object_words.specs.Contents.{Contents, Agrees, overlay};
ghost use Rattle.object_words.specs.Entries.{Entry};
ghost use Rattle.graph_model.specs.Graph.{Graph};
ghost use Rattle.holder_codec.specs.Represents.{Represents};
ghost use Rattle.holder_codec.specs.Keeping.{keeps_by_steps};

use gdi_kinds::{NoMemory, Value};
use holder_codec::{
    BucketHolder, EdgeForm, EdgeRecord, IndexHolder, KeepsGraph, MetaHolder, VertexHolder,
    buckets_alone, empty_store_represents_empty_graph, parts_look_at_their_own_objects,
    same_contents_represent_the_same, sizes_are_lengths, spellings_differ,
    store_represents_one_graph, words_are_counted,
};
use object_words::{Law, Words};
use rma_layout::DPtr;
use std::alloc::Global;
use std::test::Fail;

/// Block 81 of rank 1.
const AT: u64 = 281_474_976_710_737;

/// The word of a value of the marked type 0 of integers.
const MARKED: u64 = 9_223_372_036_854_775_808;

/// An entry fits exactly where each store that represents a graph, and in which it reads what it read, represents one
/// once its writes are put over it.
struct Keeping;

impl Law for Keeping {
    type Note = ();

    ghost fits = { λ shape entry. (store : Contents) (g : Graph) → Represents shape store g → Agrees entry.reads store →
        (h : Graph) × Represents shape (overlay store entry.writes) h };
}

impl KeepsGraph for Keeping {
    ghost keeps_graph = { keeps_by_steps Self.fits (λ shape entry store g _ fits is agrees. fits store g is agrees) };
}

fn is_kept<L: KeepsGraph>() {}

#[test]
fn laws(_rt: HostRuntime) {
    spellings_differ();
    store_represents_one_graph();
    words_are_counted();
    sizes_are_lengths();
    empty_store_represents_empty_graph();
    parts_look_at_their_own_objects();
    buckets_alone();
    same_contents_represent_the_same();
    is_kept::<Keeping>();
}

fn words_of(alloc: Global, numbers: &[u64]) -> Result<Words, NoMemory> {
    let mut words = Words::new(alloc);
    for number in numbers {
        words.push(*number)?;
    }
    Ok(words)
}

#[test]
fn names(rt: HostRuntime) -> Result<(), Fail> {
    let spelled = [
        [].as_slice(),
        [1, 0, 6, 0x6e6f_7372_6550].as_slice(),
        [0, 1, 4, 1, 110].as_slice(),
        [2, 1, 1, 65, 1, 66, 2, 1, 65].as_slice(),
    ];
    for numbers in spelled {
        let words = words_of(rt.alloc(), numbers)?;
        let names = MetaHolder::read(rt.alloc(), &words)?.ok_or("names")?;
        let again = names.write(rt.alloc())?;
        assert_eq!(rt; again.as_slice(), numbers);
    }
    let not_spelled = [
        [0, 0].as_slice(),
        [1].as_slice(),
        [2, 0, 1, 65, 1, 65].as_slice(),
        [0, 2, 0, 1, 110, 1, 1, 110].as_slice(),
        [1, 0, 1, 65, 0].as_slice(),
        [1, 0, 1, 48].as_slice(),
        [1, 0, 1, 65 + 256].as_slice(),
        [0, 1, 3, 1, 110].as_slice(),
        [0, 1, 8, 1, 110].as_slice(),
    ];
    for numbers in not_spelled {
        let words = words_of(rt.alloc(), numbers)?;
        let found = MetaHolder::read(rt.alloc(), &words)?;
        assert!(rt; found.is_none(), "{numbers:?}");
    }
    Ok(())
}

#[test]
fn buckets(rt: HostRuntime) -> Result<(), Fail> {
    let words = words_of(rt.alloc(), &[5, 9])?;
    let bucket = BucketHolder::read(rt.alloc(), &words)?.ok_or("a bucket")?;
    assert_eq!(rt; bucket.entries.len(), 1);
    let again = bucket.write(rt.alloc())?;
    assert_eq!(rt; again.as_slice(), words.as_slice());
    for numbers in [
        [5].as_slice(),
        [5, 9, 4, 9].as_slice(),
        [5, 9, 5, 9].as_slice(),
    ] {
        let words = words_of(rt.alloc(), numbers)?;
        let found = BucketHolder::read(rt.alloc(), &words)?;
        assert!(rt; found.is_none(), "{numbers:?}");
    }
    Ok(())
}

/// A vertex of these numbers is read, and written as the same again.
fn is_vertex(rt: &HostRuntime, numbers: &[u64]) -> Result<bool, NoMemory> {
    let words = words_of(rt.alloc(), numbers)?;
    let Some(vertex) = VertexHolder::read(rt.alloc(), &words)? else {
        return Ok(false);
    };
    let again = vertex.write(rt.alloc())?;
    Ok(again.as_slice() == numbers)
}

#[test]
fn vertices(rt: HostRuntime) -> Result<(), Fail> {
    for (numbers, is) in [
        ([5, 0, 0, 0, 0].as_slice(), true),
        ([5, 0, 0, 0].as_slice(), false),
        ([5, 0, 0, 0, 0, 0].as_slice(), false),
        ([5, 0, 2, 0, 0, 1, 0].as_slice(), false),
        ([5, 0, 1, 1, 0, 0, 0, 8, 36].as_slice(), true),
        ([5, 0, 0, 1, 0, 6, 2, 24_936].as_slice(), true),
        ([5, 0, 0, 1, 0, 6, 1, 24_936].as_slice(), false),
        ([5, 0, 0, 1, 0, 5, 1, 2].as_slice(), false),
        (
            [5, 1, 0, 0, 2, 0, 0, 5, AT, 0, 1, 0, 5, AT, 0].as_slice(),
            true,
        ),
        (
            [5, 1, 0, 0, 2, 1, 0, 5, AT, 0, 0, 0, 5, AT, 0].as_slice(),
            false,
        ),
        (
            [5, 1, 0, 0, 2, 2, 0, 5, AT, 0, 3, 0, 5, AT, 0].as_slice(),
            true,
        ),
        (
            [5, 1, 0, 0, 2, 4, 0, 5, AT, 0, 5, 0, 5, AT, 0].as_slice(),
            false,
        ),
    ] {
        assert_eq!(rt; is_vertex(&rt, numbers)?, is, "{numbers:?}");
    }
    Ok(())
}

#[test]
fn lists_of_values(rt: HostRuntime) -> Result<(), Fail> {
    for (one, other, is) in [
        (MARKED, MARKED, true),
        (0, 0, false),
        (MARKED, 0, false),
        (0, MARKED, false),
        (MARKED, MARKED + 4, true),
        (MARKED, MARKED + 1, false),
        (MARKED, 4, true),
    ] {
        let numbers = [1, 0, 0, 2, 0, one, 8, 5, other, 8, 3];
        assert_eq!(rt; is_vertex(&rt, &numbers)?, is, "{numbers:?}");
    }
    let words = words_of(rt.alloc(), &[1, 0, 0, 2, 0, MARKED, 8, 5, MARKED, 8, 3])?;
    let vertex = VertexHolder::read(rt.alloc(), &words)?.ok_or("a vertex")?;
    assert_eq!(rt; vertex.props.len(), 2);
    let last = vertex.props.at(1);
    assert_eq!(rt; (last.number, last.many), (0, true));
    assert!(rt; matches!(last.value, Value::Int(3)));
    Ok(())
}

#[test]
fn undirected_edge(rt: HostRuntime) -> Result<(), Fail> {
    // An undirected edge and a directed one, at their source and at their target.
    for (directions, inward) in [([2, 0], false), ([3, 1], true)] {
        let [one, other] = directions;
        let words = words_of(
            rt.alloc(),
            &[1, 2, 0, 0, 2, one, 0, 2, AT, 0, other, 1, 2, AT, 0],
        )?;
        let vertex = VertexHolder::read(rt.alloc(), &words)?.ok_or("a vertex")?;
        assert_eq!(rt; vertex.edges.len(), 2);
        let (undirected, directed) = (vertex.edges.at(0), vertex.edges.at(1));
        assert_eq!(rt; (undirected.inward, undirected.undirected), (inward, true));
        assert_eq!(rt; (directed.inward, directed.undirected), (inward, false));
        let again = vertex.write(rt.alloc())?;
        assert_eq!(rt; again.as_slice(), words.as_slice());
    }
    Ok(())
}

#[test]
fn large_bucket(rt: HostRuntime) -> Result<(), Fail> {
    let mut words = Words::new(rt.alloc());
    for n in 0..500u64 {
        words.push(256 * n)?;
        words.push(AT + n)?;
    }
    let bucket = BucketHolder::read(rt.alloc(), &words)?.ok_or("a bucket")?;
    let again = bucket.write(rt.alloc())?;
    assert_eq!(rt; (bucket.entries.len(), again.len()), (500, 1000));
    assert_eq!(rt; again.as_slice(), words.as_slice());
    Ok(())
}

#[test]
fn label_and_property(rt: HostRuntime) -> Result<(), Fail> {
    let words = words_of(rt.alloc(), &[5, 0, 1, 1, 0, 0, 0, 8, 36])?;
    let vertex = VertexHolder::read(rt.alloc(), &words)?.ok_or("a vertex")?;
    assert_eq!(rt; (vertex.id, vertex.next, vertex.edges.len()), (5, 0, 0));
    assert_eq!(rt; vertex.labels.as_slice(), [0].as_slice());
    assert_eq!(rt; vertex.props.len(), 1);
    let prop = vertex.props.at(0);
    assert_eq!(rt; (prop.number, prop.many), (0, false));
    assert!(rt; matches!(prop.value, Value::Int(36)));
    Ok(())
}

#[test]
fn self_loop(rt: HostRuntime) -> Result<(), Fail> {
    let words = words_of(rt.alloc(), &[5, 1, 0, 0, 2, 0, 0, 5, AT, 0, 1, 0, 5, AT, 0])?;
    let vertex = VertexHolder::read(rt.alloc(), &words)?.ok_or("a vertex")?;
    let outward = EdgeRecord {
        inward: false,
        undirected: false,
        ordinal: 0,
        other: 5,
        other_at: DPtr::new(1, 81),
        form: EdgeForm::Plain,
    };
    let inward = EdgeRecord {
        inward: true,
        ..outward
    };
    assert_eq!(rt; (vertex.id, vertex.next), (5, 1));
    assert_eq!(rt; vertex.edges.as_slice(), [outward, inward].as_slice());
    Ok(())
}

#[test]
fn index_objects(rt: HostRuntime) -> Result<(), Fail> {
    let words = words_of(rt.alloc(), &[0, 5, 0, 9, 2, 1])?;
    let index = IndexHolder::read(rt.alloc(), &words)?.ok_or("an object of the index")?;
    assert_eq!(rt; index.entries.len(), 3);
    let again = index.write(rt.alloc())?;
    assert_eq!(rt; again.as_slice(), words.as_slice());
    for numbers in [
        [5].as_slice(),
        [0, 9, 0, 5].as_slice(),
        [1, 5, 0, 9].as_slice(),
        [0, 5, 0, 5].as_slice(),
        [4_294_967_296, 5].as_slice(),
    ] {
        let words = words_of(rt.alloc(), numbers)?;
        let found = IndexHolder::read(rt.alloc(), &words)?;
        assert!(rt; found.is_none(), "{numbers:?}");
    }
    Ok(())
}
