ghost use Rattle.graph_model.specs.Examples.{OneValuePasses, SecondValueIsRefused, UndirectedEdgeIsListed, UndirectedEdgeIsNear, UndirectedEdgeIsWalkedBothWays, UndirectedSelfLoop, ValuesAreKept, ValuesOfAnEdgeAreKept, ConstraintsAreRefused, PeopleAreListed, PeopleAreSearched, AbortLeavesNothing, AbsentVertexIsAnsweredNo, ComponentsIgnoreDirections, DroppedVertexGivesRoom, EdgeTurnsHeavy, FourthVertexIsFull, LabelsAndPropertiesComeAndGo, LargestVertex, LevelsInACircle, LongestTextIsKept, MadeVertexIsThere, NameIsLookedUpFirst, OrdinalsAreNotUsedAgain, SecondVertexExists, SelfLoopIsListedTwice, SizeOfOneName, SizesOfASelfLoop, VertexMadeAgain, VertexMadeAgainIsFull};
ghost use Rattle.graph_model.specs.LegalExamples.{AbortIsNoEntry, EmptyScriptIsLegal, FirstSectionFirstIsLegal, FullIsLegal, LostUpdateIsIllegal, OtherReaderStandsBefore, OtherReaderStandsAfter, ReaderBeforeItsOwnSectionIsIllegal, ReaderSeesItsOwnSection, ReadingOfTheEmptyGraphIsLegal, SecondSectionFirstIsLegal};

/// A vertex is there from the call that makes it to the one that drops it, and an abort makes none.
pub fn vertices_come_and_go()
    ensures absent { AbsentVertexIsAnsweredNo }
    ensures made { MadeVertexIsThere }
    ensures twice { SecondVertexExists }
    ensures aborted { AbortLeavesNothing }
    ensures again { VertexMadeAgain }
{}

/// A small rank is full at its fourth vertex, and has room again once one is dropped.
#[tactic(auto, unfolding(crate::specs::Capacity::full_rank))]
pub fn blocks_run_out()
    ensures fourth { FourthVertexIsFull }
    ensures dropped { DroppedVertexGivesRoom }
    ensures made_again { VertexMadeAgainIsFull }
{}

/// A self loop is an edge from its vertex and one to it.
pub fn self_loop_is_listed_twice()
    ensures { SelfLoopIsListedTwice }
{}

/// An edge's ordinal is its own as long as its source lives.
pub fn ordinals_are_not_used_again()
    ensures { OrdinalsAreNotUsedAgain }
{}

/// An edge keeps its label while a property comes and goes.
pub fn edge_turns_heavy()
    ensures { EdgeTurnsHeavy }
{}

/// A name is looked up before the vertex.
pub fn name_is_looked_up_first()
    ensures { NameIsLookedUpFirst }
{}

/// The greatest identifier and a text of 255 bytes are taken.
pub fn longest_text_is_kept()
    ensures { LongestTextIsKept }
{}

/// Labels, properties and edges come and go.
pub fn labels_and_properties_come_and_go()
    ensures { LabelsAndPropertiesComeAndGo }
{}

/// Levels go by the edges' directions, and components don't.
pub fn walks_are_followed()
    ensures components { ComponentsIgnoreDirections }
    ensures levels { LevelsInACircle }
{}

/// How long some objects are, and how long one may be.
pub fn words_are_counted()
    ensures self_loop { SizesOfASelfLoop }
    ensures one_name { SizeOfOneName }
    ensures largest { LargestVertex }
{}

/// Runs that are legal: of no transaction, of readers, of an abort, and of one that finds no block.
#[tactic(auto, unfolding(crate::specs::Capacity::full_rank))]
pub fn small_runs_are_legal()
    ensures empty { EmptyScriptIsLegal }
    ensures readers { ReadingOfTheEmptyGraphIsLegal }
    ensures aborted { AbortIsNoEntry }
    ensures full { FullIsLegal }
{}

/// Two sections that each read and set a property may run in either order, and may not both read the old value.
#[tactic(auto, unfolding(crate::specs::Capacity::full_rank))]
pub fn updates_are_not_lost()
    ensures first { FirstSectionFirstIsLegal }
    ensures second { SecondSectionFirstIsLegal }
    ensures lost { LostUpdateIsIllegal }
{}

/// A reader stands after what its own section wrote before it.
#[tactic(auto, unfolding(crate::specs::Capacity::full_rank))]
pub fn reader_follows_its_section()
    ensures after { ReaderSeesItsOwnSection }
    ensures before { ReaderBeforeItsOwnSectionIsIllegal }
{}

/// A reader in another section than the writer may stand on either side of it.
#[tactic(auto, unfolding(crate::specs::Capacity::full_rank))]
pub fn other_readers_may_move()
    ensures before { OtherReaderStandsBefore }
    ensures after { OtherReaderStandsAfter }
{}

/// A graph of people and towns is listed and searched, and constraints that don't fit are refused.
pub fn people_are_found()
    ensures listed { PeopleAreListed }
    ensures searched { PeopleAreSearched }
    ensures refused { ConstraintsAreRefused }
{}

/// A property of a marked type keeps a list of values.
pub fn values_are_kept()
    ensures vertex { ValuesAreKept }
    ensures edge { ValuesOfAnEdgeAreKept }
    ensures unmarked { SecondValueIsRefused }
    ensures constraint { OneValuePasses }
{}

/// An undirected edge is listed at both ends and walked both ways.
pub fn undirected_edges_are_walked_both_ways()
    ensures listed { UndirectedEdgeIsListed }
    ensures near { UndirectedEdgeIsNear }
    ensures walked { UndirectedEdgeIsWalkedBothWays }
    ensures self_loop { UndirectedSelfLoop }
{}
