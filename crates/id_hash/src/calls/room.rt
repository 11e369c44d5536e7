ghost use Rattle.object_store.specs.Works.{Nowhere, Works};
ghost use Rattle.held_objects.specs.Knows.{Knows};
ghost use Rattle.id_hash.specs.Buckets.{TellsRoom, IsBucketFor, Lacks};
ghost use Rattle.std.specs.Prelude.{◌≢◌, IfOk};
ghost use Rattle.object_store.specs.declared.phase.Phase.TheVariants.{Idle};

use crate::bucket::{has_room, read_bucket};
use holder_codec::KeepsGraph;
use object_store::Store;
use std::alloc::Global;

/// Whether the bucket of an absent identifier takes it: exactly where `add` would. It is asked before the object of a
/// vertex is made.
#[tactic(auto, using(crate::proofs::Knows::leads_to_leads))]
pub fn room<L: KeepsGraph, S: Store<L>>(
    alloc: Global,
    store: &mut S,
    id: u64,
) -> Result<bool, S::Refused>
    requires begun { (S.state store.old).phase ≢ Idle }
    requires absent { Knows (Lacks id) (S.state store.old) }
    ensures works { Works L.fits S.state S.explains S.says (IsBucketFor id) Nowhere store.old store.new result }
    ensures room { IfOk result (λ answer. TellsRoom id (S.state store.old) (S.state store.new) answer) }
{
    let bucket = read_bucket(alloc, store, id)?;
    Ok(has_room(&bucket))
}
