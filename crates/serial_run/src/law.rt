ghost use Rattle.serial_run.specs.Serial.{SerialRunsAreLegal, SerialRunsLeaveTheirLastGraph};

/// Transactions that run one after the other, each refused for blocks exactly where a rank has too few, are a legal run of
/// their script on their load, if the load has room.

pub fn serial_runs_are_legal()
    ensures { SerialRunsAreLegal }
{}

/// Such a run leaves the graph behind the last entry of the history that it tells of.
pub fn serial_runs_leave_their_last_graph()
    ensures { SerialRunsLeaveTheirLastGraph }
{}
