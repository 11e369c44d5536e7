ghost use Rattle.plain_run.specs.Running.{RightTextsAreNotRefused};

/// Texts that are a load that has room, and a script, have no cause for which they are refused but want of memory.
pub fn right_texts_are_not_refused()
    ensures { RightTextsAreNotRefused }
{}
