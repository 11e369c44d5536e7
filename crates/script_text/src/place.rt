ghost use Rattle.std.specs.Prelude.{◌≡◌, true, nat_le, length, sum_by};
ghost use Rattle.script_text.specs.Faults.{may_stand, is_within, after};
ghost use Rattle.text_words.specs.Spelling.{atoms_in};
ghost use Rattle.script_text.specs.CallLines.{test_of};

use crate::step::{Head, Step};
use gdi_kinds::{Call, Test};

/// Where a line stands in a script.
#[derive(Clone, Copy, Debug, PartialEq, Eq)]
pub(crate) enum Stage {
    /// In front of the first section.
    Outside,
    /// In a section, outside a transaction.
    Section,
    Txn { whole: bool },
}

/// Where a line stands, and what counts towards the limits.
#[derive(Clone, Copy, Debug, PartialEq, Eq)]
pub(crate) struct Place {
    pub(crate) stage: Stage,
    /// The sections so far.
    pub(crate) sections: u64,
    /// The transactions so far, of all sections.
    pub(crate) txns: u64,
    /// The calls so far of the open transaction.
    pub(crate) calls: u64,
}

const MOST_SECTIONS: u64 = 4096;

const MOST_TXNS: u64 = 1_048_576;

const MOST_CALLS: u64 = 65_536;

const MOST_ATOMS: usize = 64;

/// Whether a line of this head may stand there.
pub(crate) fn may_stand(stage: Stage, head: Head) -> bool
    ensures { result ≡ may_stand stage head }
{
    match stage {
        Stage::Outside => matches!(head, Head::Section),
        Stage::Section => matches!(head, Head::Section | Head::Begin { .. }),
        Stage::Txn { whole } => may_stand_inside(whole, head),
    }
}

// The same in a transaction.
fn may_stand_inside(whole: bool, head: Head) -> bool
    ensures { result ≡ may_stand (Stage.Txn whole) head }
{
    match head {
        Head::Does(verb) => {
            if whole {
                verb.is_whole()
            } else {
                !verb.is_whole()
            }
        }
        Head::Close { .. } => true,
        Head::Section | Head::Begin { .. } => false,
    }
}

impl Place {
    /// The place of the first line.
    pub(crate) const START: Place = Place {
        stage: Stage::Outside,
        sections: 0,
        txns: 0,
        calls: 0,
    };

    /// The place behind a step that keeps the limits.
    pub(crate) fn after(self, step: &Step) -> Place
        requires { is_within self step.now ≡ true }
        ensures { result ≡ after self step.now }
    {
        match step {
            Step::Section => Place {
                stage: Stage::Section,
                sections: self.sections + 1,
                ..self
            },
            Step::Begin { whole } => Place {
                stage: Stage::Txn { whole: *whole },
                txns: self.txns + 1,
                calls: 0,
                ..self
            },
            Step::Does(_) => Place {
                calls: self.calls + 1,
                ..self
            },
            Step::Close { .. } => Place {
                stage: Stage::Section,
                ..self
            },
        }
    }

    /// Whether a step keeps the limits there.
    pub(crate) fn is_within(&self, step: &Step) -> bool
        ensures { result ≡ is_within self.now step.now }
    {
        match step {
            Step::Section => self.sections < MOST_SECTIONS,
            Step::Begin { .. } => self.txns < MOST_TXNS,
            Step::Does(call) => self.calls < MOST_CALLS && has_few_atoms(call),
            Step::Close { .. } => true,
        }
    }
}

// Whether a call's constraint keeps the limit of its atoms.
fn has_few_atoms(call: &Call) -> bool
    ensures { result ≡ nat_le (atoms_in (test_of call.now)) 64 }
{
    match call {
        Call::Edges { test, .. } | Call::Find { test, .. } | Call::Scan { test, .. } => {
            match test {
                Some(test) => are_few(test),
                None => true,
            }
        }
        _ => true,
    }
}

// Whether a constraint keeps the limit of its atoms.
fn are_few(test: &Test) -> bool
    ensures { result ≡ nat_le (sum_by length test.now) 64 }
{
    let mut left = MOST_ATOMS;
    for atoms in test.as_slice() {
        if atoms.len() > left {
            return false;
        }
        left -= atoms.len();
    }
    true
}
