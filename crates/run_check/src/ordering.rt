ghost use Rattle.std.specs.Prelude.{◌≡◌, ◌<◌, ◌≤◌, ◌^◌, ◌++◌, ◌∷◌, [], List, MatchBool, MatchOption};
ghost use Rattle.gdi_kinds.specs.declared.outcome.Line.{Line as OneLine};
ghost use Rattle.graph_model.specs.LegalRun.{KeepsSessionOrder};
ghost use Rattle.run_check.specs.Places.{FirstFails};
ghost use Rattle.run_check.specs.Ordering.{HasCome, MayFollow, RisesBySection, TooEarly, is_from, least_behind};

use crate::Place;
use gdi_kinds::{Line, Outcome};

/// The first outcome that stands too early in the history for its section, whose outcomes before it stand later. The
/// sections of the lines never fall. It takes no memory.
pub fn first_out_of_order(lines: &[Line]) -> Option<Place>
    requires { RisesBySection lines.now }
    ensures { MatchOption result (KeepsSessionOrder lines.now) (FirstFails TooEarly [] lines.now) }
{
    let mut reached = Reached {
        section: 0,
        least: 0,
    };
    for line in lines {
        reached.enter(line.section);
        if !reached.passes(line) {
            return Some(Place::of(line));
        }
        reached.pass(line);
    }
    None
}

// How far the outcomes of a section have come: the least number or place that may stand behind them.
#[derive(Drop)]
struct Reached {
    section: u64,
    least: u128,
}

impl Reached {
    // Comes to a line of this section.
    fn enter(&mut self, section: u64)
        requires { self.old.least ≤ 2 ^ 64 }
        ensures least { self.new.least ≤ 2 ^ 64 }
        ensures section { self.new.section ≡ section }
        ensures come { (before : List OneLine) → HasCome before self.old.section self.old.least → self.old.section ≤ section → HasCome before section self.new.least }
    {
        if section != self.section {
            self.section = section;
            self.least = 0;
        }
    }

    // Whether an outcome of this section may follow.
    fn passes(&self, line: &Line) -> bool
        requires { line.now.section ≡ self.now.section }
        ensures { (before : List OneLine) → HasCome before self.now.section self.now.least → MatchBool result (MayFollow before line.now) (TooEarly before line.now) }
    {
        is_from(self.least, &line.outcome)
    }

    // Goes behind an outcome of this section.
    fn pass(&mut self, line: &Line)
        requires least { self.old.least ≤ 2 ^ 64 }
        requires same { line.now.section ≡ self.old.section }
        ensures least { self.new.least ≤ 2 ^ 64 }
        ensures section { self.new.section ≡ self.old.section }
        ensures behind { (before : List OneLine) → HasCome before self.old.section self.old.least → HasCome (before ++ line.now ∷ []) self.old.section self.new.least }
    {
        let least = least_behind(&line.outcome);
        if least > self.least {
            self.least = least;
        }
    }
}

fn is_from(least: u128, outcome: &Outcome) -> bool
    ensures { result ≡ is_from least outcome.now }
{
    match outcome {
        Outcome::Wrote { k, .. } => least <= u128::from(*k),
        Outcome::Read { place, .. } => least <= u128::from(*place),
        Outcome::Full { place, .. } => least <= u128::from(*place),
        Outcome::Aborted => true,
    }
}

fn least_behind(outcome: &Outcome) -> u128
    ensures value { result ≡ least_behind outcome.now }
    ensures fits { result ≤ 2 ^ 64 }
{
    match outcome {
        Outcome::Wrote { k, .. } => u128::from(*k) + 1,
        Outcome::Read { place, .. } => u128::from(*place),
        Outcome::Full { place, .. } => u128::from(*place),
        Outcome::Aborted => 0,
    }
}
