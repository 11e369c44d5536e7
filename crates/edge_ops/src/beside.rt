ghost use Rattle.std.specs.Prelude.{◌≢◌, IfOk};
ghost use Rattle.rma_layout.specs.Placement.{IsBlock};
ghost use Rattle.object_store.specs.declared.phase.Phase.TheVariants.{Idle};
ghost use Rattle.object_store.specs.Works.{At, Nowhere, Works};
ghost use Rattle.held_objects.specs.Changes.{any};
ghost use Rattle.vertex_ops.specs.Vertices.{KnowsVertex};
ghost use Rattle.edge_ops.specs.Ending.{FindsBeside};

use crate::ends::Ends;
use held_objects::look;
use holder_codec::{KeepsGraph, VertexHolder};
use object_store::Store;
use rma_layout::DPtr;
use std::alloc::Global;

/// Reads the vertex at the target of an edge beside the one at its source, unless they are one.
pub(crate) fn beside<L: KeepsGraph, S: Store<L>>(
    alloc: Global,
    store: &mut S,
    source: DPtr,
    from: VertexHolder,
    target: DPtr,
) -> Result<Ends, S::Refused>
    requires begun { (S.state store.old).phase ≢ Idle }
    requires object { IsBlock (S.state store.old).shape target }
    requires vertex { KnowsVertex target any (S.state store.old) }
    ensures works { Works L.fits S.state S.explains S.says (At target) Nowhere store.old store.new result }
    ensures beside { IfOk result (λ ends. FindsBeside source target from (S.state store.old) (S.state store.new) ends) }
{
    if source == target {
        store.stays_sound();
        return Ok(Ends {
            source: from,
            target: None,
        });
    }
    let to = look(alloc, store, target)?;
    Ok(Ends {
        source: from,
        target: Some(to),
    })
}
