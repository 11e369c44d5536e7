ghost use Rattle.std.specs.Prelude.{◌≡◌, IfOk};
ghost use Rattle.rma_layout.specs.Placement.{metadata};
ghost use Rattle.object_store.specs.declared.phase.Phase.TheVariants.{Writing};
ghost use Rattle.object_store.specs.Works.{At, Nowhere, Works};
ghost use Rattle.held_objects.specs.Changes.{Changes, any};
ghost use Rattle.meta_tables.specs.Names.{HasNames, KnowsNames, new_type, size};

use crate::names::{read_names, with_type, write_names};
use gdi_kinds::{Kind, Name, Reply};
use holder_codec::{KeepsGraph, TypeLine};
use object_store::Store;
use std::alloc::Global;

/// Makes a property type, behind those that are there: Done. It is marked where its properties may have more than one
/// value. Exists where there is one of this name, TooLarge where the names would have more words than an object may
/// have; then nothing is changed.
pub fn add_type<L: KeepsGraph, S: Store<L>>(
    alloc: Global,
    store: &mut S,
    name: &Name,
    kind: Kind,
    many: bool,
) -> Result<Reply, S::Refused>
    requires begun { (S.state store.old).phase ≡ Writing }
    requires names { KnowsNames any (S.state store.old) }
    ensures works { Works L.fits S.state S.explains S.says (At metadata) Nowhere store.old store.new result }
    ensures added { IfOk result (λ reply. Changes HasNames size
        (new_type (record { name = name.now; kind = kind; many = many })) (S.state store.old) (S.state store.new) reply) }
{
    let meta = read_names(alloc, store)?;
    let line = TypeLine {
        name: *name,
        kind,
        many,
    };
    let made = with_type(meta, line);
    write_names(alloc, store, made)
}
