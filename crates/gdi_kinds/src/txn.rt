ghost use Rattle.std.specs.Prelude.{◌≡◌};
ghost use Rattle.std.specs.List.{list_all, list_any};
ghost use Rattle.gdi_kinds.specs.Calls.{is_writing, is_whole, is_whole_call, holds_its_calls};

use crate::{Call, CallList, Duplicate, NoMemory};
use std::alloc::Global;

/// A transaction as a script has it.
#[derive(Debug, Drop)]
pub struct Txn {
    /// Whether it looks at the whole graph. Such a transaction holds whole-graph calls alone, and any other holds none.
    pub whole: bool,
    pub calls: CallList,
    /// Whether its text ends with an abort.
    pub aborts: bool,
}

impl Txn {
    /// Whether it writes: whether one of its calls may change the graph, whatever the replies are.
    pub fn is_writing(&self) -> bool
        ensures { result ≡ is_writing self.now }
    {
        self.calls.as_slice().iter().any(Call::is_writing)
    }

    /// Whether it looks at the whole graph.
    pub fn is_whole(&self) -> bool
        ensures { result ≡ is_whole self.now }
    {
        self.whole
    }

    /// Whether it holds whole-graph calls alone, or none of them, as `whole` says.
    pub fn holds_its_calls(&self) -> bool
        ensures { result ≡ holds_its_calls self.now }
    {
        if self.whole {
            all_whole(self.calls.as_slice())
        } else {
            !any_whole(self.calls.as_slice())
        }
    }
}

impl Duplicate for Txn {
    fn copy(&self, alloc: Global) -> Result<Txn, NoMemory> {
        Ok(Txn {
            whole: self.whole,
            calls: self.calls.copy(alloc)?,
            aborts: self.aborts,
        })
    }
}

fn all_whole(calls: &[Call]) -> bool
    ensures { result ≡ list_all is_whole_call calls.now }
{
    calls.iter().all(Call::is_whole)
}

fn any_whole(calls: &[Call]) -> bool
    ensures { result ≡ list_any is_whole_call calls.now }
{
    calls.iter().any(Call::is_whole)
}
