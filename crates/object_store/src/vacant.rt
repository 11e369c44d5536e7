ghost use Rattle.std.specs.Prelude.{◌≡◌, ◌<◌, MatchOption};
ghost use Rattle.rma_layout.specs.Shape.{Shape};
ghost use Rattle.object_store.specs.Plain.{IsFirstVacant, IsNoneVacant, is_vacant};

use crate::objects::Objects;
use rma_layout::{DPtr, Geometry};

/// The least unreserved object of a rank that is empty and isn't written, if there is one.
pub(crate) fn first_vacant(
    geometry: &Geometry,
    committed: &Objects,
    writes: &Objects,
    rank: u16,
) -> Option<DPtr>
    ensures { MatchOption result (IsNoneVacant geometry.now committed.now writes.now rank)
        (λ object. IsFirstVacant geometry.now committed.now writes.now rank object) }
{
    geometry.keeps_ranges();
    for block in geometry.reserved()..geometry.blocks() {
        let object = DPtr::new(rank, block);
        if committed.is_empty_at(object) && !writes.has(object) {
            return Some(object);
        }
    }
    None
}
