ghost use Rattle.touched_objects.specs.FromSteps.{EachTouchesAll, StepsTellWhatStayed};
ghost use Rattle.touched_objects.specs.Needed.{CallsLeadBack, NeededByTouched};
ghost use Rattle.touched_objects.specs.Touched.{OtherObjectsStay};
ghost use Rattle.touched_objects.specs.Weights.{SumsDifferByThese, UsedDiffersByTouched};

/// Steps back leave every object as it was that none of them touches: it is there as before, with as many words.
pub fn other_objects_stay()
    ensures { OtherObjectsStay }
{}

/// Where two graphs differ in some objects alone, the sums over the objects of a rank differ by what these weigh; so do the
/// blocks in use.
pub fn sums_differ_by_touched()
    ensures sums { SumsDifferByThese }
    ensures used { UsedDiffersByTouched }
{}

/// Over all calls the steps lead back to the graph before them. The blocks that the calls need are one for each object that
/// they make, and what the objects that they touch grow by.
pub fn needed_by_touched()
    ensures back { CallsLeadBack }
    ensures needed { NeededByTouched }
{}

/// The steps and the last graph alone tell which objects are touched on the way back, and which of the objects that are
/// there at last were there all along.
pub fn steps_tell_of_objects()
    ensures touched { EachTouchesAll }
    ensures stayed { StepsTellWhatStayed }
{}
