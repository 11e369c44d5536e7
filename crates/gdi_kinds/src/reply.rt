use crate::{
    Duplicate, EdgeList, NameList, NoMemory, NumList, PairList, PropList, Value, ValueList,
};
use std::alloc::Global;

/// The graph's answer to a call. A refusal is an answer too, and ends no transaction.
#[derive(Debug, Drop)]
pub enum Reply {
    Done,
    Yes,
    No,
    /// What was to be made is there already.
    Exists,
    /// There is no vertex of this identifier.
    NoVertex(u64),
    NoEdge,
    NoLabel,
    NoType,
    NoProp,
    /// The value isn't of its type's kind.
    WrongKind,
    /// The type isn't marked, so it may not keep more than one value.
    NotMany,
    HasLabel,
    LacksLabel,
    /// An object would pass the limit of its words, or a source has no ordinal left.
    TooLarge,
    /// The new edge: its source and its ordinal there.
    EdgeIs(u64, u64),
    Labels(NameList),
    Props(PropList),
    /// The value of a property whose type isn't marked.
    Value(Value),
    /// The values of a property whose type is marked, in their order.
    Values(ValueList),
    Edges(EdgeList),
    Ids(NumList),
    /// Identifiers with their levels.
    Levels(PairList),
    /// The least identifier of each component, with its size.
    Parts(PairList),
    Count(u64),
}

impl Duplicate for Reply {
    fn copy(&self, alloc: Global) -> Result<Reply, NoMemory> {
        Ok(match self {
            Reply::Done => Reply::Done,
            Reply::Yes => Reply::Yes,
            Reply::No => Reply::No,
            Reply::Exists => Reply::Exists,
            Reply::NoVertex(id) => Reply::NoVertex(*id),
            Reply::NoEdge => Reply::NoEdge,
            Reply::NoLabel => Reply::NoLabel,
            Reply::NoType => Reply::NoType,
            Reply::NoProp => Reply::NoProp,
            Reply::WrongKind => Reply::WrongKind,
            Reply::NotMany => Reply::NotMany,
            Reply::HasLabel => Reply::HasLabel,
            Reply::LacksLabel => Reply::LacksLabel,
            Reply::TooLarge => Reply::TooLarge,
            Reply::EdgeIs(source, ordinal) => Reply::EdgeIs(*source, *ordinal),
            Reply::Labels(names) => Reply::Labels(names.copy(alloc)?),
            Reply::Props(props) => Reply::Props(props.copy(alloc)?),
            Reply::Value(value) => Reply::Value(value.copy(alloc)?),
            Reply::Values(values) => Reply::Values(values.copy(alloc)?),
            Reply::Edges(edges) => Reply::Edges(edges.copy(alloc)?),
            Reply::Ids(ids) => Reply::Ids(ids.copy(alloc)?),
            Reply::Levels(levels) => Reply::Levels(levels.copy(alloc)?),
            Reply::Parts(parts) => Reply::Parts(parts.copy(alloc)?),
            Reply::Count(count) => Reply::Count(*count),
        })
    }
}
