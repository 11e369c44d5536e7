ghost use Rattle.graph_undo.specs.Undo.{StepsLeadBack};

/// The steps that are noted before a call lead back from the graph that it leaves, whatever the call is, and every graph
/// on the way has both ends of each edge.
pub fn calls_are_undone()
    ensures { StepsLeadBack }
{}
