use crate::Same;
use gdi_kinds::Reply;

impl Same for Reply {
    fn is_same(&self, other: &Reply) -> bool {
        match (self, other) {
            (Reply::Done, Reply::Done) => true,
            (Reply::Yes, Reply::Yes) => true,
            (Reply::No, Reply::No) => true,
            (Reply::Exists, Reply::Exists) => true,
            (Reply::NoEdge, Reply::NoEdge) => true,
            (Reply::NoLabel, Reply::NoLabel) => true,
            (Reply::NoType, Reply::NoType) => true,
            (Reply::NoProp, Reply::NoProp) => true,
            (Reply::WrongKind, Reply::WrongKind) => true,
            (Reply::NotMany, Reply::NotMany) => true,
            (Reply::HasLabel, Reply::HasLabel) => true,
            (Reply::LacksLabel, Reply::LacksLabel) => true,
            (Reply::TooLarge, Reply::TooLarge) => true,
            (Reply::NoVertex(one), Reply::NoVertex(other)) => *one == *other,
            (Reply::EdgeIs(source, ordinal), Reply::EdgeIs(other_source, other_ordinal)) => {
                *source == *other_source && *ordinal == *other_ordinal
            }
            (Reply::Labels(one), Reply::Labels(other)) => one.is_same(other),
            (Reply::Props(one), Reply::Props(other)) => one.is_same(other),
            (Reply::Value(one), Reply::Value(other)) => one.is_same(other),
            (Reply::Values(one), Reply::Values(other)) => one.is_same(other),
            (Reply::Edges(one), Reply::Edges(other)) => one.is_same(other),
            (Reply::Ids(one), Reply::Ids(other)) => one.is_same(other),
            (Reply::Levels(one), Reply::Levels(other)) => one.is_same(other),
            (Reply::Parts(one), Reply::Parts(other)) => one.is_same(other),
            (Reply::Count(one), Reply::Count(other)) => *one == *other,
            _ => false,
        }
    }
}
