ghost use Rattle.std.specs.Prelude.{◌≡◌, ◌<◌, ◌++◌, [], ◌∷◌, length, IfOk, OnOk};
ghost use Rattle.std.specs.List.{AllByRecursion, filter, list_all};
ghost use Rattle.std.specs.Option.{option_to_list};
ghost use Rattle.gdi_kinds.specs.declared.call.Call.TheVariants as call;
ghost use Rattle.graph_model.specs.ListCalls.{vertices_where};
ghost use Rattle.graph_model.specs.Maps.{has, keys};
ghost use Rattle.graph_model.specs.WellFormed.{IsWellFormed};
ghost use Rattle.map_graph.specs.Lines.{is_found};
ghost use Rattle.map_graph.specs.Plain.{Answers};

use super::MapGraph;
use crate::ModelRefused;
use gdi_kinds::{Name, NoMemory, NumList, Reply, Test};
use graph_parts::HeldVertex;

// The calls that find vertices by a label and a constraint.
impl MapGraph {
    pub(super) fn find(&self, name: &Name, test: &Option<Test>) -> Result<Reply, ModelRefused>
        requires { IsWellFormed self.now.graph }
        ensures { IfOk result (Answers self.now (call.Find name.now test.now) self.now) }
    {
        let Some(label) = self.label_number(name) else {
            return Ok(Reply::NoLabel);
        };
        if let Err(refusal) = self.names_known(test) {
            return Ok(refusal);
        }
        if let Err(refusal) = self.kinds_agree(test) {
            return Ok(refusal);
        }
        let ids = self.vertices_where(Some(label), test)?;
        Ok(Reply::Ids(ids))
    }

    pub(super) fn scan(
        &self,
        name: &Option<Name>,
        test: &Option<Test>,
    ) -> Result<Reply, ModelRefused>
        requires { IsWellFormed self.now.graph }
        ensures { IfOk result (Answers self.now (call.Scan name.now test.now) self.now) }
    {
        let label = match self.label_if_named(name) {
            Ok(label) => label,
            Err(refusal) => return Ok(refusal),
        };
        if let Err(refusal) = self.names_known(test) {
            return Ok(refusal);
        }
        if let Err(refusal) = self.kinds_agree(test) {
            return Ok(refusal);
        }
        let ids = self.vertices_where(label, test)?;
        Ok(Reply::Ids(ids))
    }

    // The vertices that pass, rising: with this label, where one is given.
    fn vertices_where(&self, label: Option<u32>, test: &Option<Test>) -> Result<NumList, NoMemory>
        requires { IsWellFormed self.now.graph }
        ensures { IfOk result (λ ids. ids ≡ vertices_where self.now.graph (option_to_list label) test.now) }
    {
        let mut ids = NumList::new(self.alloc());
        for (id, vertex) in self.vertices.iter() {
            self.push_if_found(&mut ids, *id, vertex, label, test)?;
        }
        Ok(ids)
    }

    // Puts a vertex behind others if it has the label, where one is given, and passes.
    fn push_if_found(
        &self,
        ids: &mut NumList,
        id: u64,
        vertex: &HeldVertex,
        label: Option<u32>,
        test: &Option<Test>,
    ) -> Result<(), NoMemory>
        requires labels { AllByRecursion (λ n. n < length self.now.graph.labels) vertex.now.labels }
        requires types { AllByRecursion (λ entry. entry.0 < length self.now.graph.types) vertex.now.props }
        ensures { OnOk result (ids.new ≡ ids.old
            ++ keys (filter (is_found self.now.graph (option_to_list label) test.now) ((id, vertex.now) ∷ []))) }
    {
        if !has_label_if_given(vertex, label) {
            return Ok(());
        }
        if !self.passes(test, vertex.labels(), vertex.props())? {
            return Ok(());
        }
        ids.push(id)?;
        Ok(())
    }
}

fn has_label_if_given(vertex: &HeldVertex, label: Option<u32>) -> bool
    ensures { result ≡ list_all (has vertex.now.labels) (option_to_list label) }
{
    match label {
        Some(label) => vertex.has_label(label),
        None => true,
    }
}
