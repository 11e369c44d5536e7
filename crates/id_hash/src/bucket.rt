ghost use Rattle.object_store.specs.Works.{Nowhere, Works};
ghost use Rattle.object_store.specs.Calls.{WritesObject};
ghost use Rattle.held_objects.specs.Knows.{Knows};
ghost use Rattle.id_hash.specs.Buckets.{FindsBucket, IsBucketFor, Leads};
ghost use Rattle.std.specs.Prelude.{◌≡◌, ◌≢◌, ◌≤◌, ◌+◌, ◌*◌, not, IfOk, IsOkAnd, IsTrue, MatchResult, OnOk, Some, None, length, slice_get};
ghost use Rattle.std.specs.Option.{option_map};
ghost use Rattle.std.specs.List.{insert};
ghost use Rattle.rma_layout.specs.Placement.{bucket_of};
ghost use Rattle.graph_model.specs.Sizes.{is_too_large};
ghost use Rattle.object_store.specs.declared.phase.Phase.TheVariants.{Idle, Writing};
ghost use Rattle.holder_codec.specs.declared.bucket_entry.BucketEntry.{BucketEntry};
ghost use Rattle.holder_codec.specs.Bucket.{IsBucketHolder, bucket_words, is_entry_before};
ghost use Rattle.holder_codec.specs.Order.{is_rising};
ghost use Rattle.id_hash.specs.Entries.{entry_for, with_entry, without_entry};
ghost use Rattle.rma_layout.specs.declared.limits.TheConstants.{MOST_WORDS};

use gdi_kinds::NoMemory;
use held_objects::{look, put};
use holder_codec::{BucketEntry, BucketHolder, BucketList, KeepsGraph};
use object_store::Store;
use rma_layout::DPtr;
use std::alloc::Global;

/// A bucket leads to at most so many vertices: each takes two words of its object.
const MOST_ENTRIES: usize = 524_288;

/// The bucket of an identifier as the transaction finds it.
pub(crate) fn read_bucket<L: KeepsGraph, S: Store<L>>(
    alloc: Global,
    store: &mut S,
    id: u64,
) -> Result<BucketHolder, S::Refused>
    requires begun { (S.state store.old).phase ≢ Idle }
    requires leads { Knows Leads (S.state store.old) }
    ensures works { Works L.fits S.state S.explains S.says (IsBucketFor id) Nowhere store.old store.new result }
    ensures found { IfOk result (λ bucket. FindsBucket id (S.state store.old) (S.state store.new) bucket) }
{
    let geometry = store.geometry();
    geometry.keeps_ranges();
    let bucket = look(alloc, store, geometry.bucket(id))?;
    Ok(bucket)
}

/// Gives the bucket of an identifier other entries, unless no memory was found to make it.
pub(crate) fn write_bucket<L: KeepsGraph, S: Store<L>>(
    alloc: Global,
    store: &mut S,
    id: u64,
    made: Result<BucketHolder, NoMemory>,
) -> Result<(), S::Refused>
    requires begun { (S.state store.old).phase ≡ Writing }
    requires is { IfOk made IsBucketHolder }
    requires few { IfOk made (λ bucket. length (bucket_words bucket) ≤ MOST_WORDS) }
    ensures works { Works L.fits S.state S.explains S.says (IsBucketFor id) Nowhere store.old store.new result }
    ensures wrote { OnOk result (IsOkAnd made (λ bucket.
        WritesObject (bucket_of (S.state store.old).shape id) (bucket_words bucket) (S.state store.old) (S.state store.new))) }
{
    let at = store.geometry().bucket(id);
    put(alloc, store, at, made)
}

/// Whether a bucket takes one vertex more.
pub(crate) fn has_room(bucket: &BucketHolder) -> bool
    ensures { result ≡ not (is_too_large (2 * (length bucket.now.entries + 1))) }
{
    bucket.entries.len() < MOST_ENTRIES
}

/// Where an identifier stands in a bucket, or else where it would stand.
fn position_of(bucket: &BucketHolder, id: u64) -> Result<usize, usize>
    requires { IsTrue (is_rising is_entry_before bucket.now.entries) }
    ensures { MatchResult result
        (λ i. (found : BucketEntry) × (slice_get bucket.now.entries i ≡ Some found) × (entry_for bucket.now.entries id ≡ Some found))
        (λ i. (i ≤ length bucket.now.entries) × (entry_for bucket.now.entries id ≡ None)
        × ((entry : BucketEntry) → entry.id ≡ id → insert bucket.now.entries i entry ≡ with_entry entry bucket.now.entries)) }
{
    bucket
        .entries
        .as_slice()
        .binary_search_by_key(&id, |entry| entry.id)
}

/// The object to which an identifier leads in a bucket.
pub(crate) fn object_in(bucket: &BucketHolder, id: u64) -> Option<DPtr>
    requires { IsTrue (is_rising is_entry_before bucket.now.entries) }
    ensures { result ≡ option_map (λ entry. entry.at) (entry_for bucket.now.entries id) }
{
    match position_of(bucket, id) {
        Ok(place) => Some(bucket.entries.at(place).at),
        Err(_) => None,
    }
}

/// A bucket that leads to one vertex more.
pub(crate) fn bucket_with(
    alloc: Global,
    bucket: &BucketHolder,
    entry: BucketEntry,
) -> Result<BucketHolder, NoMemory>
    requires holder { IsBucketHolder bucket.now }
    requires absent { entry_for bucket.now.entries entry.id ≡ None }
    ensures made { IfOk result (λ made. made ≡ (record { entries = with_entry entry bucket.now.entries })) }
    ensures holder { IfOk result IsBucketHolder }
{
    let mut entries = bucket.entries.as_slice().to_vec(alloc)?;
    if let Err(place) = position_of(bucket, entry.id) {
        entries.insert(place, entry)?;
    }
    let entries = BucketList::from_vec(entries);
    Ok(BucketHolder { entries })
}

/// A bucket in which an identifier leads nowhere.
pub(crate) fn bucket_without(
    alloc: Global,
    bucket: &BucketHolder,
    id: u64,
) -> Result<BucketHolder, NoMemory>
    requires holder { IsBucketHolder bucket.now }
    ensures made { IfOk result (λ made. made ≡ (record { entries = without_entry id bucket.now.entries })) }
    ensures holder { IfOk result IsBucketHolder }
{
    let mut entries = BucketList::new(alloc);
    for entry in bucket.entries.as_slice() {
        if entry.id != id {
            entries.push(*entry)?;
        }
    }
    Ok(BucketHolder { entries })
}
