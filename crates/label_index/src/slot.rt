ghost use Rattle.std.specs.Prelude.{◌≡◌, ◌≢◌, ◌≤◌, ◌+◌, ◌*◌, not, IfOk, IsOkAnd, IsTrue, MatchResult, OnOk, Some, None, length, slice_get};
ghost use Rattle.std.specs.List.{insert};
ghost use Rattle.graph_model.specs.Sizes.{is_too_large};
ghost use Rattle.object_store.specs.declared.phase.Phase.TheVariants.{Idle, Writing};
ghost use Rattle.object_store.specs.Calls.{WritesObject};
ghost use Rattle.object_store.specs.Works.{Nowhere, Works};
ghost use Rattle.holder_codec.specs.declared.index_entry.IndexEntry.{IndexEntry};
ghost use Rattle.holder_codec.specs.Index.{IsIndexHolder, index_words, is_pair_before};
ghost use Rattle.holder_codec.specs.Order.{is_rising};
ghost use Rattle.held_objects.specs.Knows.{Knows};
ghost use Rattle.label_index.specs.Entries.{entry_for, pair_of, slot_for, with_pair, without_pair};
ghost use Rattle.label_index.specs.Index.{FindsSlot, Indexes, IsSlotFor};

use gdi_kinds::NoMemory;
use held_objects::{look, put};
use holder_codec::{IndexEntry, IndexHolder, IndexList, KeepsGraph};
use object_store::Store;
use std::alloc::Global;

/// An object of the index has at most so many entries: each takes two words.
const MOST_ENTRIES: usize = 524_288;

/// The slot of a label of a vertex as the transaction finds it.
pub(crate) fn read_slot<L: KeepsGraph, S: Store<L>>(
    alloc: Global,
    store: &mut S,
    entry: IndexEntry,
) -> Result<IndexHolder, S::Refused>
    requires begun { (S.state store.old).phase ≢ Idle }
    requires indexes { Knows Indexes (S.state store.old) }
    ensures works { Works L.fits S.state S.explains S.says (IsSlotFor (pair_of entry)) Nowhere store.old store.new result }
    ensures found { IfOk result (λ index. FindsSlot (pair_of entry) (S.state store.old) (S.state store.new) index) }
{
    let geometry = store.geometry();
    geometry.keeps_ranges();
    let index = look(alloc, store, geometry.slot(entry.label, entry.id))?;
    Ok(index)
}

/// Gives the slot other entries, unless no memory was found to make it.
pub(crate) fn write_slot<L: KeepsGraph, S: Store<L>>(
    alloc: Global,
    store: &mut S,
    entry: IndexEntry,
    made: Result<IndexHolder, NoMemory>,
) -> Result<(), S::Refused>
    requires begun { (S.state store.old).phase ≡ Writing }
    requires is { IfOk made IsIndexHolder }
    requires few { IfOk made (λ index. length (index_words index) ≤ 1048576) }
    ensures works { Works L.fits S.state S.explains S.says (IsSlotFor (pair_of entry)) Nowhere store.old store.new result }
    ensures wrote { OnOk result (IsOkAnd made (λ index.
        WritesObject (slot_for (S.state store.old).shape (pair_of entry)) (index_words index) (S.state store.old) (S.state store.new))) }
{
    let at = store.geometry().slot(entry.label, entry.id);
    put(alloc, store, at, made)
}

/// Whether a slot takes one entry more.
pub(crate) fn has_room(index: &IndexHolder) -> bool
    ensures { result ≡ not (is_too_large (2 * (length index.now.entries + 1))) }
{
    index.entries.len() < MOST_ENTRIES
}

/// Where an entry stands in a slot, or else where it would stand.
fn position_of(index: &IndexHolder, entry: IndexEntry) -> Result<usize, usize>
    requires { IsTrue (is_rising is_pair_before index.now.entries) }
    ensures { MatchResult result
        (λ i. (found : IndexEntry) × (slice_get index.now.entries i ≡ Some found)
        × (entry_for index.now.entries (pair_of entry) ≡ Some found))
        (λ i. (i ≤ length index.now.entries) × (entry_for index.now.entries (pair_of entry) ≡ None)
        × ((one : IndexEntry) → pair_of one ≡ pair_of entry → insert index.now.entries i one ≡ with_pair one index.now.entries)) }
{
    index
        .entries
        .as_slice()
        .binary_search_by_key(&(entry.label, entry.id), |one| (one.label, one.id))
}

/// A slot with one entry more.
pub(crate) fn slot_with(
    alloc: Global,
    index: &IndexHolder,
    entry: IndexEntry,
) -> Result<IndexHolder, NoMemory>
    requires holder { IsIndexHolder index.now }
    requires absent { entry_for index.now.entries (pair_of entry) ≡ None }
    ensures made { IfOk result (λ made. made ≡ (record { entries = with_pair entry index.now.entries })) }
    ensures holder { IfOk result IsIndexHolder }
{
    let mut entries = index.entries.as_slice().to_vec(alloc)?;
    if let Err(place) = position_of(index, entry) {
        entries.insert(place, entry)?;
    }
    let entries = IndexList::from_vec(entries);
    Ok(IndexHolder { entries })
}

/// A slot without an entry.
pub(crate) fn slot_without(
    alloc: Global,
    index: &IndexHolder,
    entry: IndexEntry,
) -> Result<IndexHolder, NoMemory>
    requires holder { IsIndexHolder index.now }
    ensures made { IfOk result (λ made. made ≡ (record { entries = without_pair (pair_of entry) index.now.entries })) }
    ensures holder { IfOk result IsIndexHolder }
{
    let mut entries = IndexList::new(alloc);
    for one in index.entries.as_slice() {
        if entry.label != one.label || entry.id != one.id {
            entries.push(*one)?;
        }
    }
    Ok(IndexHolder { entries })
}
