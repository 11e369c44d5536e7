ghost use Rattle.std.specs.Prelude.{◌≡◌, [], ◌∷◌, ◌++◌, map, OnOk, MatchOption};
ghost use Rattle.map_graph.specs.Noted.{undo_of};

use crate::undo::Undo;
use gdi_kinds::NoMemory;
use std::alloc::Global;
use std::marker::Model;

/// What was there before each of some calls: steps that lead a graph back, from the last one to the first.
#[derive(Debug, Drop)]
pub struct Journal {
    steps: Vec<Undo>,
}

impl Model for Journal {
    ghost use Rattle.std.specs.Prelude.{List};
    ghost use Rattle.graph_undo.specs.Undo.{Undo as Step};

    ghost Value = { List Step };

    ghost use Rattle.std.specs.Prelude.{map};
    ghost use Rattle.map_graph.specs.Noted.{undo_of};

    ghost view = { λ journal. map undo_of journal.steps.items };
}

impl Journal {
    /// No step. It takes no memory.
    pub fn new(alloc: Global) -> Journal
        ensures { result ≡ [] }
    {
        Journal {
            steps: Vec::new(alloc),
        }
    }

    /// The steps, as they were noted.
    pub fn steps(&self) -> &[Undo]
        ensures { map undo_of result.now ≡ self.now }
    {
        self.steps.as_slice()
    }

    /// Notes a step behind the others.
    pub(crate) fn push(&mut self, step: Undo) -> Result<(), NoMemory>
        ensures { OnOk result (self.new ≡ self.old ++ undo_of step ∷ []) }
    {
        self.steps.push(step)?;
        Ok(())
    }

    /// Takes the last step out, if there is one.
    pub(crate) fn pop(&mut self) -> Option<Undo>
        ensures { MatchOption result ((self.old ≡ []) × (self.new ≡ [])) (λ step. self.old ≡ self.new ++ undo_of step ∷ []) }
    {
        self.steps.pop()
    }
}
