ghost use Rattle.std.specs.Prelude.{◌≡◌, ℕ, ◌++◌, true, IfOk, OnOk};
ghost use Rattle.gdi_kinds.specs.declared.call.Call.TheVariants as call;
ghost use Rattle.graph_model.specs.Maps.{has, keys};
ghost use Rattle.graph_model.specs.Walks.{both_ways, graph_steps, joining_steps, steps_over};
ghost use Rattle.graph_model.specs.WellFormed.{IsWellFormed};
ghost use Rattle.graph_walks.specs.Steps.{leads, steps_of};
ghost use Rattle.map_graph.specs.Plain.{Answers};

use super::MapGraph;
use crate::ModelRefused;
use edge_index::EdgeKey;
use gdi_kinds::{NoMemory, NumList, Reply};
use graph_parts::HeldEdge;
use graph_walks::{FlatSteps, Places, StepList, hood_of, levels_of, parts_of};

// The calls that walk over the graph.
impl MapGraph {
    pub(super) fn levels(&self, id: u64) -> Result<Reply, ModelRefused>
        requires { IsWellFormed self.now.graph }
        ensures { IfOk result (Answers self.now (call.Levels id) self.now) }
    {
        let Some(_vertex) = self.vertex(id) else {
            return Ok(Reply::NoVertex(id));
        };
        let steps = self.steps()?;
        let levels = levels_of(self.alloc(), &steps, id)?;
        Ok(Reply::Levels(levels))
    }

    pub(super) fn hood(&self, id: u64, depth: u64) -> Result<Reply, ModelRefused>
        requires { IsWellFormed self.now.graph }
        ensures { IfOk result (Answers self.now (call.Hood id depth) self.now) }
    {
        let Some(_vertex) = self.vertex(id) else {
            return Ok(Reply::NoVertex(id));
        };
        let steps = self.steps()?;
        let hood = hood_of(self.alloc(), &steps, id, depth)?;
        Ok(Reply::Ids(hood))
    }

    pub(super) fn parts(&self) -> Result<Reply, ModelRefused>
        requires { IsWellFormed self.now.graph }
        ensures { IfOk result (Answers self.now call.Parts self.now) }
    {
        let steps = self.joining_steps()?;
        let parts = parts_of(self.alloc(), &steps)?;
        Ok(Reply::Parts(parts))
    }

    // The vertices by place.
    fn places(&self) -> Result<Places, NoMemory>
        requires { IsWellFormed self.now.graph }
        ensures { IfOk result (λ places. places ≡ keys self.now.graph.vertices) }
    {
        let ids = self.ids()?;
        let places = Places::new(self.alloc(), ids)?;
        Ok(places)
    }

    // The vertices, rising.
    fn ids(&self) -> Result<NumList, NoMemory>
        ensures { IfOk result (λ ids. ids ≡ keys self.now.graph.vertices) }
    {
        Ok(NumList::from_vec(self.vertices.keys().copied().collect(self.alloc())?))
    }

    // The steps that the edges allow.
    fn steps(&self) -> Result<FlatSteps, NoMemory>
        requires { IsWellFormed self.now.graph }
        ensures ids { IfOk result (λ steps. steps.ids ≡ keys self.now.graph.vertices) }
        ensures steps { IfOk result (λ steps. (i t : ℕ) → leads (steps_of steps) i t ≡ leads (graph_steps self.now.graph) i t) }
    {
        let places = self.places()?;
        let mut steps = StepList::new(self.alloc(), places, self.edges.len())?;
        for (key, edge) in self.edges.iter() {
            add_steps(&mut steps, *key, edge)?;
        }
        let flat = FlatSteps::gather(self.alloc(), steps)?;
        Ok(flat)
    }

    // The steps that the edges allow, and those back.
    fn joining_steps(&self) -> Result<FlatSteps, NoMemory>
        requires { IsWellFormed self.now.graph }
        ensures ids { IfOk result (λ steps. steps.ids ≡ keys self.now.graph.vertices) }
        ensures steps { IfOk result (λ steps. (i t : ℕ) → leads (steps_of steps) i t ≡ leads (joining_steps self.now.graph) i t) }
    {
        let places = self.places()?;
        let mut steps = StepList::new(self.alloc(), places, self.edges.len().saturating_mul(2))?;
        for (key, edge) in self.edges.iter() {
            add_both_ways(&mut steps, key.source(), edge.target())?;
        }
        let flat = FlatSteps::gather(self.alloc(), steps)?;
        Ok(flat)
    }
}

// Adds the steps that an edge between vertices allows.
fn add_steps(steps: &mut StepList, key: EdgeKey, edge: &HeldEdge) -> Result<(), NoMemory>
    requires source { has steps.old.ids key.source ≡ true }
    requires target { has steps.old.ids edge.now.target ≡ true }
    ensures ids { OnOk result (steps.new.ids ≡ steps.old.ids) }
    ensures steps { OnOk result (steps_of steps.new ≡ steps_of steps.old ++ steps_over (key, edge.now)) }
{
    if edge.undirected() {
        return add_both_ways(steps, key.source(), edge.target());
    }
    steps.add(key.source(), edge.target())
}

fn add_both_ways(steps: &mut StepList, from: u64, to: u64) -> Result<(), NoMemory>
    requires from { has steps.old.ids from ≡ true }
    requires to { has steps.old.ids to ≡ true }
    ensures ids { OnOk result (steps.new.ids ≡ steps.old.ids) }
    ensures steps { OnOk result (steps_of steps.new ≡ steps_of steps.old ++ both_ways from to) }
{
    steps.add(from, to)?;
    steps.add(to, from)
}
