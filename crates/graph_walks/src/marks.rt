ghost use Rattle.std.specs.Prelude.{◌≡◌, ℕ, ◌<◌, ◌≤◌, Some, None, length, is_none, IfOk, if◌then◌else◌, ◌==◌};
ghost use Rattle.std.specs.Option.{option_or};
ghost use Rattle.graph_walks.specs.Marks.{mark_at};

use gdi_kinds::NoMemory;
use std::alloc::Global;
use std::marker::Model;

const NONE: u32 = u32::MAX;

/// Numbers below 2^32 - 1 that some places are marked with.
#[derive(Debug, Drop)]
pub(crate) struct Marks {
    // By place.
    marks: Vec<u32>,
}

impl Model for Marks {
    ghost use Rattle.std.specs.Prelude.{ℕ, List, Option, map};
    ghost use Rattle.graph_walks.specs.Marks.{mark_of};

    ghost Value = { List (Option ℕ) };

    ghost view = { λ marks. map mark_of marks.marks.items };
}

impl Marks {
    /// None of so many places is marked.
    pub(crate) fn new(alloc: Global, count: usize) -> Result<Marks, NoMemory>
        ensures len { IfOk result (λ marks. length marks ≡ count) }
        ensures none { IfOk result (λ marks. (j : ℕ) → mark_at marks j ≡ None) }
    {
        let marks = vec![in alloc; NONE; count]?;
        Ok(Marks { marks })
    }

    /// How many places there are.
    pub(crate) fn len(&self) -> usize
        ensures { result ≡ length self.now }
    {
        self.marks.len()
    }

    /// The mark of a place.
    pub(crate) fn get(&self, place: usize) -> Option<u32>
        requires { place < length self.now }
        ensures { result ≡ mark_at self.now place }
    {
        let mark = self.marks[place];
        if mark == NONE { None } else { Some(mark) }
    }

    /// Marks a place that has no mark yet, and tells whether it had none.
    pub(crate) fn mark(&mut self, place: usize, mark: u32) -> bool
        requires place { place < length self.old }
        requires mark { mark < 4294967295 }
        ensures len { length self.new ≡ length self.old }
        ensures free { result ≡ is_none (mark_at self.old place) }
        ensures marks { (j : ℕ) → mark_at self.new j ≡ option_or (mark_at self.old j) (if place == j then Some mark else None) }
    {
        if self.marks[place] != NONE {
            return false;
        }
        self.marks[place] = mark;
        true
    }
}
