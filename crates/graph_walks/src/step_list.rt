ghost use Rattle.std.specs.Prelude.{◌≡◌, ◌&&◌, [], ◌∷◌, ◌++◌, length, IfOk, OnOk, if◌then◌else◌};
ghost use Rattle.graph_model.specs.Maps.{has};
ghost use Rattle.graph_walks.specs.Steps.{steps_of};
ghost use Rattle.graph_walks.specs.Flat.{ArePlaces, AreWithin};

use crate::Places;
use gdi_kinds::NoMemory;
use std::alloc::Global;
use std::marker::Model;

/// Steps between vertices, in any order.
#[derive(Debug, Drop)]
pub struct StepList {
    places: Places,
    // From place to place.
    hops: Vec<(u32, u32)>,
}

impl Model for StepList {
    ghost use Rattle.graph_walks.specs.Steps.{Hops};

    ghost Value = { Hops };

    ghost use Rattle.std.specs.Prelude.{length};
    ghost use Rattle.graph_walks.specs.Flat.{AreWithin};

    ghost view = { λ list. record { ids = list.places; hops = list.hops.items } };

    ghost invariant = { λ list. AreWithin (length list.places) list.hops.items };
}

impl StepList {
    /// No step between these vertices, with room for so many.
    pub fn new(alloc: Global, places: Places, room: usize) -> Result<StepList, NoMemory>
        ensures { IfOk result (λ list. list ≡ (record { ids = places; hops = [] })) }
    {
        Ok(StepList {
            places,
            hops: Vec::with_capacity(alloc, room)?,
        })
    }

    /// Adds a step, if both its ends are among the vertices.
    #[inline]
    pub fn add(&mut self, from: u64, to: u64) -> Result<(), NoMemory>
        ensures ids { OnOk result (self.new.ids ≡ self.old.ids) }
        ensures steps { OnOk result (steps_of self.new
            ≡ steps_of self.old ++ (if has self.old.ids from && has self.old.ids to then (from, to) ∷ [] else [])) }
    {
        let Some(from) = self.places.place(from) else {
            return Ok(());
        };
        let Some(to) = self.places.place(to) else {
            return Ok(());
        };
        // This tells that places fit.
        let _count = self.places.len();
        self.hops.push((from as u32, to as u32))?;
        Ok(())
    }

    /// The vertices, and the steps from place to place.
    pub(crate) fn into_parts(self) -> (Places, Vec<(u32, u32)>)
        ensures parts { self ≡ (record { ids = result.0; hops = result.1.items }) }
        ensures within { AreWithin (length result.0) result.1.items }
    {
        (self.places, self.hops)
    }
}
