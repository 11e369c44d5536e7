ghost use Rattle.std.specs.Prelude.{◌≡◌, ℕ, ◌<◌, length, IsTrue, IfOk};
ghost use Rattle.graph_model.specs.Maps.{has};
ghost use Rattle.graph_walks.specs.Steps.{leads, steps_of};
ghost use Rattle.graph_walks.specs.Flat.{ArePlaces, AreWithin};

use crate::gather::rows_of;
use crate::{Places, StepList};
use gdi_kinds::NoMemory;
use std::alloc::Global;
use std::marker::Model;

/// Steps between vertices, by the vertices that they lead from.
#[derive(Debug, Drop)]
pub struct FlatSteps {
    places: Places,
    // Where the row of each place starts, and where the last one ends.
    starts: Vec<usize>,
    // The places where the steps of the rows lead.
    ends: Vec<u32>,
}

impl Model for FlatSteps {
    ghost use Rattle.std.specs.Prelude.{length};
    ghost use Rattle.graph_walks.specs.Steps.{Hops, hops_of};
    ghost use Rattle.graph_walks.specs.Flat.{AreRows};

    ghost Value = { Hops };

    ghost view = { λ flat. record { ids = flat.places; hops = hops_of flat.starts.items flat.ends.items (length flat.places) } };

    ghost invariant = { λ flat. AreRows (length flat.places) flat.starts.items flat.ends.items };
}

impl FlatSteps {
    /// The steps of a list.
    pub fn gather(alloc: Global, list: StepList) -> Result<FlatSteps, NoMemory>
        ensures ids { IfOk result (λ flat. flat.ids ≡ list.ids) }
        ensures steps { IfOk result (λ flat. (i t : ℕ) → leads (steps_of flat) i t ≡ leads (steps_of list) i t) }
    {
        let (places, hops) = list.into_parts();
        let (starts, ends) = rows_of(alloc, places.len(), hops.as_slice())?;
        Ok(FlatSteps {
            places,
            starts,
            ends,
        })
    }

    /// The vertices.
    pub fn places(&self) -> &Places
        ensures { result.now ≡ self.now.ids }
    {
        &self.places
    }

    /// How many vertices there are.
    pub fn len(&self) -> usize
        ensures value { result ≡ length self.now.ids }
        ensures places { ArePlaces self.now.ids }
        ensures within { (i t : ℕ) → IsTrue (leads self.now.hops i t) → (i < length self.now.ids) × (t < length self.now.ids) }
    {
        let _rows = &self.starts;
        self.places.len()
    }

    /// The places where the steps from a place lead. There is none where no vertex is.
    pub(crate) fn row(&self, place: usize) -> &[u32]
        ensures hops { (t : ℕ) → has result.now t ≡ leads self.now.hops place t }
        ensures within { (t : ℕ) → IsTrue (has result.now t) → t < length self.now.ids }
    {
        if place >= self.places.len() {
            return &[];
        }
        &self.ends.as_slice()[self.starts[place]..self.starts[place + 1]]
    }
}
