ghost use Rattle.std.specs.Prelude.{◌≡◌, ◌<◌, [], ◌∷◌, length, IfOk, MatchResult, Ok, Err};
ghost use Rattle.std.specs.List.{AllByRecursion, list_any};
ghost use Rattle.graph_model.specs.ListCalls.{atoms_of, is_of_wrong_kind, kinds_agree, names_known, passes_test};

use super::MapGraph;
use constraints::passes;
use gdi_kinds::{Atom, AtomList, NoMemory, Reply, Test};
use graph_parts::HeldProps;
use std::alloc::Global;
use std::collections::BTreeSet;

// Whether a constraint fits the graph, and what passes it.
impl MapGraph {
    /// That all names of a constraint are known, or the refusal of the first that isn't.
    pub(super) fn names_known(&self, test: &Option<Test>) -> Result<(), Reply>
        ensures { MatchResult result (λ _. Ok tt ≡ names_known self.now.graph (atoms_of test.now))
            (λ refusal. Err refusal ≡ names_known self.now.graph (atoms_of test.now)) }
    {
        let Some(test) = test else {
            return Ok(());
        };
        for atoms in test.as_slice() {
            if let Err(refusal) = self.all_known(atoms) {
                return Err(refusal);
            }
        }
        Ok(())
    }

    fn all_known(&self, atoms: &AtomList) -> Result<(), Reply>
        ensures { MatchResult result (λ _. Ok tt ≡ names_known self.now.graph atoms.now)
            (λ refusal. Err refusal ≡ names_known self.now.graph atoms.now) }
    {
        for atom in atoms.as_slice() {
            if let Err(refusal) = self.name_known(atom) {
                return Err(refusal);
            }
        }
        Ok(())
    }

    fn name_known(&self, atom: &Atom) -> Result<(), Reply>
        ensures { MatchResult result (λ _. Ok tt ≡ names_known self.now.graph (atom.now ∷ []))
            (λ refusal. Err refusal ≡ names_known self.now.graph (atom.now ∷ [])) }
    {
        match atom {
            Atom::Has(name) => match self.label_number(name) {
                Some(_) => Ok(()),
                None => Err(Reply::NoLabel),
            },
            Atom::Lacks(name) => match self.label_number(name) {
                Some(_) => Ok(()),
                None => Err(Reply::NoLabel),
            },
            Atom::Prop(name, _, _) => match self.type_number(name) {
                Some(_) => Ok(()),
                None => Err(Reply::NoType),
            },
        }
    }

    /// That all constants of a constraint are of their types' kinds, or the refusal.
    pub(super) fn kinds_agree(&self, test: &Option<Test>) -> Result<(), Reply>
        ensures { MatchResult result (λ _. Ok tt ≡ kinds_agree self.now.graph (atoms_of test.now))
            (λ refusal. Err refusal ≡ kinds_agree self.now.graph (atoms_of test.now)) }
    {
        if self.has_wrong_kind(test) {
            return Err(Reply::WrongKind);
        }
        Ok(())
    }

    fn has_wrong_kind(&self, test: &Option<Test>) -> bool
        ensures { result ≡ list_any (is_of_wrong_kind self.now.graph) (atoms_of test.now) }
    {
        let Some(test) = test else {
            return false;
        };
        self.some_list_has_wrong_kind(test)
    }

    fn some_list_has_wrong_kind(&self, test: &Test) -> bool
        ensures { result ≡ list_any (list_any (is_of_wrong_kind self.now.graph)) test.now }
    {
        test.as_slice()
            .iter()
            .any(|atoms| self.some_is_of_wrong_kind(atoms))
    }

    fn some_is_of_wrong_kind(&self, atoms: &AtomList) -> bool
        ensures { result ≡ list_any (is_of_wrong_kind self.now.graph) atoms.now }
    {
        atoms
            .as_slice()
            .iter()
            .any(|atom| self.is_of_wrong_kind(atom))
    }

    fn is_of_wrong_kind(&self, atom: &Atom) -> bool
        ensures { result ≡ is_of_wrong_kind self.now.graph atom.now }
    {
        match atom {
            Atom::Has(_) | Atom::Lacks(_) => false,
            Atom::Prop(name, _, value) => match self.type_number(name) {
                Some(ty) => !self.is_of_kind(ty, value),
                None => false,
            },
        }
    }

    /// Whether labels and properties pass a constraint. All do where there is none.
    pub(super) fn passes(
        &self,
        test: &Option<Test>,
        labels: &BTreeSet<u32, Global>,
        props: &HeldProps,
    ) -> Result<bool, NoMemory>
        requires labels { AllByRecursion (λ n. n < length self.now.graph.labels) labels.now.keys }
        requires types { AllByRecursion (λ entry. entry.0 < length self.now.graph.types) props.now }
        ensures { IfOk result (λ passed. passed ≡ passes_test self.now.graph test.now labels.now.keys props.now) }
    {
        let Some(test) = test else {
            return Ok(true);
        };
        let names = self.names_of(labels)?;
        let lines = self.lines_of_props(props)?;
        Ok(passes(test, &names, &lines))
    }
}
