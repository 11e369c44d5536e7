use crate::{Duplicate, LineList, NoMemory, ReplyList};
use std::alloc::Global;

/// How a transaction ended.
#[derive(Debug, Drop)]
pub enum Outcome {
    /// It is entry `k` of the history, from 0.
    Wrote { k: u64, replies: ReplyList },
    /// It read the graph after the first `place` entries.
    Read { place: u64, replies: ReplyList },
    Aborted,
    /// On the graph after the first `place` entries this rank has too few blocks for it.
    Full { rank: u16, place: u64 },
}

/// An outcome with its place in the script.
#[derive(Debug, Drop)]
pub struct Line {
    /// The number of the section, from 1.
    pub section: u64,
    /// The number of the transaction in its section, from 1.
    pub txn: u64,
    pub outcome: Outcome,
}

/// What a run prints.
#[derive(Debug, Drop)]
pub struct Printed {
    /// The outcomes in the order of the script.
    pub lines: LineList,
    /// How many entries the history has, those of the load included.
    pub writes: u64,
}

impl Duplicate for Outcome {
    fn copy(&self, alloc: Global) -> Result<Outcome, NoMemory> {
        Ok(match self {
            Outcome::Wrote { k, replies } => Outcome::Wrote {
                k: *k,
                replies: replies.copy(alloc)?,
            },
            Outcome::Read { place, replies } => Outcome::Read {
                place: *place,
                replies: replies.copy(alloc)?,
            },
            Outcome::Aborted => Outcome::Aborted,
            Outcome::Full { rank, place } => Outcome::Full {
                rank: *rank,
                place: *place,
            },
        })
    }
}

impl Duplicate for Line {
    fn copy(&self, alloc: Global) -> Result<Line, NoMemory> {
        Ok(Line {
            section: self.section,
            txn: self.txn,
            outcome: self.outcome.copy(alloc)?,
        })
    }
}
