ghost use Rattle.script_text.specs.Faultless.{FaultlessTextSpells, SpellingTextIsFaultless};
ghost use Rattle.script_text.specs.OldScripts.{OldScriptsAreAll, OldScriptsStay};

/// Texts from before a type could keep many values and an edge could be undirected: each spells the script that it
/// spelled then, and they are all texts of the scripts that had one.
#[tactic(auto, using(crate::proofs::OldLaw::old_scripts_stay, crate::proofs::OldLaw::old_scripts_are_all))]
pub fn old_scripts_stay()
    ensures stay { OldScriptsStay }
    ensures all { OldScriptsAreAll }
{}

/// A text spells a script exactly where it has no fault.
pub fn faultless_texts_are_scripts()
    ensures spells { FaultlessTextSpells }
    ensures only { SpellingTextIsFaultless }
{}
