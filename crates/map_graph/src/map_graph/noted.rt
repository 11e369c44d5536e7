ghost use Rattle.std.specs.Prelude.{◌≡◌, ◌++◌, IfOk, OnOk};
ghost use Rattle.graph_model.specs.Graph.{Graph};
ghost use Rattle.graph_model.specs.Calls.{graph_after_call, reply_to};
ghost use Rattle.graph_model.specs.Transactions.{graph_after_calls, replies_to_calls};
ghost use Rattle.graph_undo.specs.Undo.{LeadBack, noted_before};
ghost use Rattle.graph_model.specs.WellFormed.{IsWellFormed};

use super::MapGraph;
use crate::ModelRefused;
use crate::journal::Journal;
use gdi_kinds::{Call, Reply, ReplyList};

impl MapGraph {
    /// Does a call as `apply` does, and notes what it may change. So the journal leads back to where it led before.
    pub fn apply_noted(&mut self, call: &Call, journal: &mut Journal) -> Result<Reply, ModelRefused>
        requires { IsWellFormed self.old.graph }
        ensures shape { self.new.shape ≡ self.old.shape }
        ensures reply { IfOk result (λ reply. reply ≡ reply_to self.old.shape self.old.graph call.now) }
        ensures graph { OnOk result (self.new.graph ≡ graph_after_call self.old.shape self.old.graph call.now) }
        ensures noted { OnOk result (journal.new ≡ journal.old ++ noted_before self.old.graph call.now) }
        ensures leads { OnOk result ((before : Graph)
            → LeadBack journal.old self.old.graph before → LeadBack journal.new self.new.graph before) }
        ensures well_formed { OnOk result (IsWellFormed self.new.graph) }
    {
        if self.torn {
            return Err(ModelRefused::NoMemory);
        }
        // These tell that identifiers and names are in order.
        let _vertices = self.vertices.len();
        let _edges = self.edges.len();
        self.note(call, journal)?;
        let reply = self.apply(call)?;
        Ok(reply)
    }

    /// Does calls in order, each as `apply_noted` does, and answers their replies.
    pub fn run_noted(
        &mut self,
        calls: &[Call],
        journal: &mut Journal,
    ) -> Result<ReplyList, ModelRefused>
        requires { IsWellFormed self.old.graph }
        ensures shape { self.new.shape ≡ self.old.shape }
        ensures replies { IfOk result (λ replies. replies ≡ replies_to_calls self.old.shape self.old.graph calls.now) }
        ensures graph { OnOk result (self.new.graph ≡ graph_after_calls self.old.shape self.old.graph calls.now) }
        ensures leads { OnOk result ((before : Graph)
            → LeadBack journal.old self.old.graph before → LeadBack journal.new self.new.graph before) }
        ensures well_formed { OnOk result (IsWellFormed self.new.graph) }
    {
        let mut replies = ReplyList::new(self.alloc);
        for call in calls {
            let reply = self.apply_noted(call, journal)?;
            replies.push(reply)?;
        }
        Ok(replies)
    }

    /// Does calls in order and answers their replies, and then takes them back. It costs what the calls touch, however
    /// large the graph is.
    pub fn run_and_take_back(&mut self, calls: &[Call]) -> Result<ReplyList, ModelRefused>
        requires { IsWellFormed self.old.graph }
        ensures shape { self.new.shape ≡ self.old.shape }
        ensures replies { IfOk result (λ replies. replies ≡ replies_to_calls self.old.shape self.old.graph calls.now) }
        ensures graph { OnOk result (self.new.graph ≡ self.old.graph) }
        ensures well_formed { OnOk result (IsWellFormed self.new.graph) }
    {
        let mut journal = Journal::new(self.alloc);
        let replies = self.run_noted(calls, &mut journal)?;
        self.roll_back(&mut journal)?;
        Ok(replies)
    }
}
