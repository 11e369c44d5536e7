ghost use Rattle.object_store.specs.Works.{Nowhere, Works};
ghost use Rattle.held_objects.specs.Knows.{Knows};
ghost use Rattle.id_hash.specs.Buckets.{Adds, IsBucketFor, Lacks};
ghost use Rattle.std.specs.Prelude.{◌≡◌, IfOk};
ghost use Rattle.object_store.specs.declared.phase.Phase.TheVariants.{Writing};

use crate::bucket::{bucket_with, has_room, read_bucket, write_bucket};
use holder_codec::{BucketEntry, KeepsGraph};
use object_store::Store;
use rma_layout::DPtr;
use std::alloc::Global;

/// Lets the bucket of an absent identifier lead to the object of its vertex. It answers false, and changes nothing,
/// exactly where the bucket would have more words than an object may have.
#[tactic(auto, using(crate::proofs::Knows::leads_to_leads))]
pub fn add<L: KeepsGraph, S: Store<L>>(
    alloc: Global,
    store: &mut S,
    id: u64,
    at: DPtr,
) -> Result<bool, S::Refused>
    requires begun { (S.state store.old).phase ≡ Writing }
    requires absent { Knows (Lacks id) (S.state store.old) }
    ensures works { Works L.fits S.state S.explains S.says (IsBucketFor id) Nowhere store.old store.new result }
    ensures added { IfOk result (λ added. Adds id at (S.state store.old) (S.state store.new) added) }
{
    let bucket = read_bucket(alloc, store, id)?;
    if !has_room(&bucket) {
        return Ok(false);
    }
    let made = bucket_with(alloc, &bucket, BucketEntry { id, at });
    write_bucket(alloc, store, id, made)?;
    Ok(true)
}
