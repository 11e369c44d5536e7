ghost use Rattle.run_check.specs.Laws.{EarlyOnesAreOutOfOrder, FittingOnesRise, IllegalOnesAreNot, MisfitsDontFit, MisnumberedOnesAreNot};

/// Where an outcome doesn't stand for the next transaction, or is lacking, the outcomes don't fit the script.
pub fn misfits_dont_fit()
    ensures { MisfitsDontFit }
{}

/// Where an outcome's number or place can't be, or the outcomes are too few or too many, the run isn't numbered.
pub fn misnumbered_ones_are_not()
    ensures { MisnumberedOnesAreNot }
{}

/// Where an outcome stands too early, a section doesn't keep its order.
pub fn early_ones_are_out_of_order()
    ensures { EarlyOnesAreOutOfOrder }
{}

/// Where each transaction has its outcome, the sections of the lines never fall.
pub fn fitting_ones_rise()
    ensures { FittingOnesRise }
{}

/// Where a clause fails first at an outcome, the run isn't legal.
pub fn illegal_ones_are_not()
    ensures { IllegalOnesAreNot }
{}
