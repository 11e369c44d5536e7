ghost use Rattle.bulk_load.specs.Alone.{RightFileIsNotWrong, RightFileIsOneTransaction};
ghost use Rattle.bulk_load.specs.Laws.{LoadedCallsSucceed};
ghost use Rattle.bulk_load.specs.OldLoads.{OldLoadsAreAll, OldLoadsStay};

/// A load file that is a transaction on a graph is no other one there, and no record of it is wrong.
pub fn right_files_are_not_wrong()
    ensures one { RightFileIsOneTransaction }
    ensures right { RightFileIsNotWrong }
{}

/// On the graph on which a load file is a transaction, every reply of it is `Done` or the new edge.
pub fn loaded_calls_succeed()
    ensures { LoadedCallsSucceed }
{}

/// Load files from before a type could keep many values and an edge could be undirected: on a graph of that time each is
/// the transaction that it was, and every file of today without the new columns was one then.
pub fn old_loads_stay()
    ensures stay { OldLoadsStay }
    ensures all { OldLoadsAreAll }
{}
