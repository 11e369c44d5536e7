ghost use Rattle.std.specs.Prelude.{◌≡◌, IfErr, IfOk, if◌then◌else◌};
ghost use Rattle.gdi_kinds.specs.declared.call.Call.TheVariants.{Has};
ghost use Rattle.gdi_kinds.specs.declared.reply.Reply.TheVariants as reply;
ghost use Rattle.object_store.specs.Works.{Works};
ghost use Rattle.held_objects.specs.Knows.{Knows};
ghost use Rattle.id_hash.specs.Buckets.{IsBucketFor};
ghost use Rattle.graph_law.specs.Calls.{AppliesCall, MayCall, MayMakeOn, RefusesCall, Stands};
ghost use Rattle.graph_law.specs.Law.{Fits};

use gdi_kinds::Reply;
use graph_law::GraphLaw;
use id_hash::find;
use object_store::Store;
use std::alloc::Global;

/// Whether a vertex is there: Yes or No.
pub fn has_vertex<S: Store<GraphLaw>>(
    alloc: Global,
    store: &mut S,
    id: u64,
) -> Result<Reply, S::Refused>
    requires may { MayCall (Has id) (S.state store.old) }
    requires stands { Knows Stands (S.state store.old) }
    ensures works { Works Fits S.state S.explains S.says (IsBucketFor id) (MayMakeOn (Has id)) store.old store.new result }
    ensures applied { IfOk result (λ reply. AppliesCall (Has id) (S.state store.old) (S.state store.new) reply) }
    ensures refused { IfErr result (λ why. RefusesCall (Has id) (S.state store.old) (S.says why)) }
{
    let geometry = store.geometry();
    geometry.keeps_ranges();
    let found = find(alloc, store, id)?;
    let reply = yes_or_no(found.is_some());
    Ok(reply)
}

fn yes_or_no(answer: bool) -> Reply
    ensures { result ≡ (if answer then reply.Yes else reply.No) }
{
    if answer { Reply::Yes } else { Reply::No }
}
