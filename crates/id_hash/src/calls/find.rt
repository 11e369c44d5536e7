ghost use Rattle.object_store.specs.Works.{Nowhere, Works};
ghost use Rattle.held_objects.specs.Knows.{Knows};
ghost use Rattle.id_hash.specs.Buckets.{Finds, IsBucketFor, Leads};
ghost use Rattle.std.specs.Prelude.{◌≢◌, IfOk};
ghost use Rattle.object_store.specs.declared.phase.Phase.TheVariants.{Idle};

use crate::bucket::{object_in, read_bucket};
use holder_codec::KeepsGraph;
use object_store::Store;
use rma_layout::DPtr;
use std::alloc::Global;

/// The object of a vertex. There is none exactly where the vertex is absent. It reads the bucket of the identifier
/// alone.
pub fn find<L: KeepsGraph, S: Store<L>>(
    alloc: Global,
    store: &mut S,
    id: u64,
) -> Result<Option<DPtr>, S::Refused>
    requires begun { (S.state store.old).phase ≢ Idle }
    requires leads { Knows Leads (S.state store.old) }
    ensures works { Works L.fits S.state S.explains S.says (IsBucketFor id) Nowhere store.old store.new result }
    ensures found { IfOk result (λ found. Finds id (S.state store.old) (S.state store.new) found) }
{
    let bucket = read_bucket(alloc, store, id)?;
    Ok(object_in(&bucket, id))
}
