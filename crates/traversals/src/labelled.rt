ghost use Rattle.std.specs.Prelude.{◌≡◌, ℕ, ◌++◌, ◌∷◌, [], Some, None, false, is_some, MatchOption, length, map, slice_index, IfOk, OnOk, if◌then◌else◌};
ghost use Rattle.std.specs.List.{filter, position, range_with_len};
ghost use Rattle.std.specs.Str.{bytes_eq};
ghost use Rattle.gdi_kinds.specs.declared.call.Call.TheVariants as call;
ghost use Rattle.graph_model.specs.Graph.{Graph};
ghost use Rattle.graph_model.specs.ListCalls.{vertices_where};
ghost use Rattle.graph_model.specs.Maps.{has, place_where};
ghost use Rattle.traversals.specs.Outline.{IsOf};
ghost use Rattle.traversals.specs.Questions.{Tells, is_question};
ghost use Rattle.traversals.specs.Rows.{row_of};

use crate::{FlatGraph, LabelRows};
use gdi_kinds::{Name, NoMemory, NumList, Reply, Test};
use std::alloc::Global;

// Finding vertices by their labels.
impl FlatGraph {
    /// The vertices, rising: those with a label, where one is named.
    pub fn scan(&self, alloc: Global, label: &Option<Name>) -> Result<Reply, NoMemory>
        ensures { IfOk result (Tells self.now (call.Scan label.now None)) }
    {
        match label {
            Some(name) => self.scan_named(alloc, name),
            None => self.scan_all(alloc),
        }
    }

    /// The same if there is no constraint.
    pub(crate) fn scan_if_free(
        &self,
        alloc: Global,
        label: &Option<Name>,
        test: &Option<Test>,
    ) -> Result<Option<Reply>, NoMemory>
        ensures some { IfOk result (λ reply. is_some reply ≡ is_question (call.Scan label.now test.now)) }
        ensures reply { IfOk result (λ reply. MatchOption reply (is_question (call.Scan label.now test.now) ≡ false) (Tells self.now (call.Scan label.now test.now))) }
    {
        match test {
            Some(_) => Ok(None),
            None => Ok(Some(self.scan(alloc, label)?)),
        }
    }

    fn scan_named(&self, alloc: Global, name: &Name) -> Result<Reply, NoMemory>
        ensures { IfOk result (Tells self.now (call.Scan (Some name.now) None)) }
    {
        let Some(number) = self.label_number(name) else {
            return Ok(Reply::NoLabel);
        };
        let found = self.labelled(alloc, number)?;
        Ok(Reply::Ids(found))
    }

    fn scan_all(&self, alloc: Global) -> Result<Reply, NoMemory>
        ensures { IfOk result (Tells self.now (call.Scan None None)) }
    {
        let ids = self.ids(alloc)?;
        Ok(Reply::Ids(ids))
    }

    /// The number of a label.
    pub fn label_number(&self, name: &Name) -> Option<u32>
        ensures { result ≡ place_where (bytes_eq name.now) self.now.names }
    {
        let place = place_of_name(name, self.names().as_slice())?;
        Some(place as u32)
    }

    /// The vertices, rising.
    pub fn ids(&self, alloc: Global) -> Result<NumList, NoMemory>
        ensures { IfOk result (λ ids. ids ≡ self.now.ids) }
    {
        let mut ids = Vec::with_capacity(alloc, self.vertices())?;
        ids.extend_from_slice(self.steps().places().ids())?;
        Ok(NumList::from_vec(ids))
    }

    /// The vertices that have a label, by its number, rising.
    pub fn labelled(&self, alloc: Global, label: u32) -> Result<NumList, NoMemory>
        ensures { IfOk result (λ found. (g : Graph) → IsOf g self.now → found ≡ vertices_where g (label ∷ []) None) }
    {
        let found = labelled_among(alloc, self.steps().places().ids(), self.labels(), label)?;
        Ok(found)
    }
}

// Those of some vertices whose rows have a label.
fn labelled_among(
    alloc: Global,
    ids: &[u64],
    rows: &LabelRows,
    label: u32,
) -> Result<NumList, NoMemory>
    requires { length rows.now ≡ length ids.now }
    ensures { IfOk result (λ found. found
        ≡ map (slice_index ids.now) (filter (λ p. has (row_of rows.now p) label) (range_with_len 0 (length ids.now)))) }
{
    let mut found = NumList::new(alloc);
    for place in 0..ids.len() {
        push_if(&mut found, ids[place], has_label(rows.row(place), label))?;
    }
    Ok(found)
}

fn place_of_name(name: &Name, names: &[Name]) -> Option<usize>
    ensures { result ≡ position (bytes_eq name.now) names.now }
{
    names.iter().position(|other| name == other)
}

fn has_label(labels: &[u32], label: u32) -> bool
    ensures { result ≡ has labels.now label }
{
    labels.contains(&label)
}

fn push_if(found: &mut NumList, id: u64, passes: bool) -> Result<(), NoMemory>
    ensures { OnOk result (found.new ≡ found.old ++ (if passes then id ∷ [] else [])) }
{
    if !passes {
        return Ok(());
    }
    found.push(id)
}
