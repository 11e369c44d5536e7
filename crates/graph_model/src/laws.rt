ghost use Rattle.graph_model.specs.MovedPlaces.{ReadingPlacesMayMove};
ghost use Rattle.graph_model.specs.Limits.{CallKeepsObjectsShort, LegalRunKeepsLimits, TransactionKeepsLimits};
ghost use Rattle.graph_model.specs.Laws.{AbortIsNeverFull, ComponentIsLeast, EachVertexHasAComponent, LevelIsLeast, EachWalkHasALevel, CallKeepsWellFormed, EmptyGraphIsWellFormed, HistoryIsWellFormed, TransactionKeepsWellFormed, AbortLeavesTheGraph, GraphLooksAtItsEntriesAlone, LookingCallLeavesTheGraph, LookingTransactionIsNeverFull, LookingTransactionLeavesTheGraph, NamedRankIsShort, ObjectsHaveABlock, ObjectsHaveWords, RefusedCallLeavesTheGraph, ShortTransactionIsFull};

/// What leaves the graph as it is: a call that is refused, and one that only looks.
#[tactic(auto, using(crate::proofs::Leaving::refused_call, crate::proofs::Leaving::looking_call))]
pub fn calls_that_leave_the_graph()
    ensures refused { RefusedCallLeavesTheGraph }
    ensures looking { LookingCallLeavesTheGraph }
{}

/// What leaves the graph as it is: a transaction that aborts, and one that doesn't write.
#[tactic(auto, using(crate::proofs::Transactions::abort_leaves, crate::proofs::Transactions::looking_leaves))]
pub fn transactions_that_leave_the_graph()
    ensures aborted { AbortLeavesTheGraph }
    ensures looking { LookingTransactionLeavesTheGraph }
{}

/// A transaction that writes and commits is refused for blocks exactly where a rank is short, and by such a rank. No other is.
#[tactic(auto, using(crate::proofs::Short::abort_never_full, crate::proofs::Short::looking_never_full, crate::proofs::Short::named_rank_short, crate::proofs::Short::short_full))]
pub fn full_names_a_short_rank()
    ensures aborted { AbortIsNeverFull }
    ensures looking { LookingTransactionIsNeverFull }
    ensures named { NamedRankIsShort }
    ensures short { ShortTransactionIsFull }
{}

/// The graph after n entries looks at these entries alone.
#[tactic(auto, using(crate::proofs::Transactions::looks_at_entries))]
pub fn graph_looks_at_its_entries_alone()
    ensures { GraphLooksAtItsEntriesAlone }
{}

/// A vertex and an edge's object have five words at least, and any object a block.
pub fn objects_have_words()
    ensures words { ObjectsHaveWords }
    ensures blocks { ObjectsHaveABlock }
{}

/// Calls, transactions and histories whose names, values and identifiers fit keep graphs well formed, and the empty one is.
#[tactic(auto, using(crate::proofs::Transactions::empty_well, crate::proofs::Leaving::well_formed_call, crate::proofs::Transactions::well_formed_txn, crate::proofs::Transactions::well_formed_history))]
pub fn graphs_stay_well_formed()
    ensures empty { EmptyGraphIsWellFormed }
    ensures call { CallKeepsWellFormed }
    ensures transaction { TransactionKeepsWellFormed }
    ensures history { HistoryIsWellFormed }
{}

/// A legal run stays legal where transactions that only read do so at other places, which their sections allow and which give the same replies.
pub fn reading_places_may_move()
    ensures { ReadingPlacesMayMove }
{}

/// On a well-formed graph a vertex has a level from another exactly where a walk leads to it: the least number of its edges.
#[tactic(auto, using(crate::proofs::Levels::walk_level))]
pub fn levels_are_least()
    ensures least { LevelIsLeast }
    ensures each { EachWalkHasALevel }
{}

/// On a well-formed graph each vertex has a component, named by the least identifier that a walk joins with it.
#[tactic(auto, using(crate::proofs::Components::component_least, crate::proofs::Components::vertex_component))]
pub fn components_are_least()
    ensures least { ComponentIsLeast }
    ensures each { EachVertexHasAComponent }
{}

/// On every graph that a legal run reaches no rank uses more blocks than it has, and no object has more words than an object
/// may have: a call lets no object grow too long, and a transaction that isn't refused for blocks fits into them.
#[tactic(auto, using(crate::proofs::CallChanges::call_short, crate::proofs::KeepsLimits::txn_keeps_limits))]
pub fn limits_are_kept()
    ensures call { CallKeepsObjectsShort }
    ensures transaction { TransactionKeepsLimits }
    ensures run { LegalRunKeepsLimits }
{}
