ghost use Rattle.plain_check.specs.Laws.{RightOutputsAreNotRefused, WhatRunsPrintIsAccepted};

/// Where texts are a load that has room, and a script, and the output spells a run, the check is refused for want of memory
/// alone.
pub fn right_outputs_are_not_refused()
    ensures { RightOutputsAreNotRefused }
{}

/// What a legal run of texts prints is accepted, whatever texts they are: nothing else is answered but want of memory.
pub fn what_runs_print_is_accepted()
    ensures { WhatRunsPrintIsAccepted }
{}
