ghost use Rattle.std.specs.Prelude.{◌≡◌, IfOk};
ghost use Rattle.rma_layout.specs.Placement.{metadata};
ghost use Rattle.object_store.specs.declared.phase.Phase.TheVariants.{Writing};
ghost use Rattle.object_store.specs.Works.{At, Nowhere, Works};
ghost use Rattle.held_objects.specs.Changes.{Changes, any};
ghost use Rattle.meta_tables.specs.Names.{HasNames, KnowsNames, new_label, size};

use crate::names::{read_names, with_label, write_names};
use gdi_kinds::{Name, Reply};
use holder_codec::KeepsGraph;
use object_store::Store;
use std::alloc::Global;

/// Makes a label, behind those that are there: Done. Exists where there is one of this name, TooLarge where the names
/// would have more words than an object may have; then nothing is changed.
pub fn add_label<L: KeepsGraph, S: Store<L>>(
    alloc: Global,
    store: &mut S,
    name: &Name,
) -> Result<Reply, S::Refused>
    requires begun { (S.state store.old).phase ≡ Writing }
    requires names { KnowsNames any (S.state store.old) }
    ensures works { Works L.fits S.state S.explains S.says (At metadata) Nowhere store.old store.new result }
    ensures added { IfOk result (λ reply. Changes HasNames size (new_label name.now) (S.state store.old) (S.state store.new) reply) }
{
    let meta = read_names(alloc, store)?;
    let made = with_label(meta, name);
    write_names(alloc, store, made)
}
