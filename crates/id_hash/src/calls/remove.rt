ghost use Rattle.object_store.specs.Works.{Nowhere, Works};
ghost use Rattle.held_objects.specs.Knows.{Knows};
ghost use Rattle.id_hash.specs.Buckets.{Has, IsBucketFor, Removes};
ghost use Rattle.std.specs.Prelude.{◌≡◌, OnOk};
ghost use Rattle.object_store.specs.declared.phase.Phase.TheVariants.{Writing};

use crate::bucket::{bucket_without, read_bucket, write_bucket};
use holder_codec::KeepsGraph;
use object_store::Store;
use std::alloc::Global;

/// Lets the bucket of a present identifier lead to its object no more.
#[tactic(auto, using(crate::proofs::Knows::has_leads))]
pub fn remove<L: KeepsGraph, S: Store<L>>(
    alloc: Global,
    store: &mut S,
    id: u64,
) -> Result<(), S::Refused>
    requires begun { (S.state store.old).phase ≡ Writing }
    requires present { Knows (Has id) (S.state store.old) }
    ensures works { Works L.fits S.state S.explains S.says (IsBucketFor id) Nowhere store.old store.new result }
    ensures removed { OnOk result (Removes id (S.state store.old) (S.state store.new)) }
{
    let bucket = read_bucket(alloc, store, id)?;
    let made = bucket_without(alloc, &bucket, id);
    write_bucket(alloc, store, id, made)?;
    Ok(())
}
