ghost use Rattle.outcome_text.specs.OldOutputs.{OldOutputsAreAll, OldOutputsStay};

/// Outputs from before a type could keep many values and an edge could be undirected: each is the text of the run that
/// it was the text of then, and they are all texts of the runs that had one.
#[tactic(auto, using(crate::proofs::OldLaw::old_outputs_are_all))]
pub fn old_outputs_stay()
    ensures stay { OldOutputsStay }
    ensures all { OldOutputsAreAll }
{}
