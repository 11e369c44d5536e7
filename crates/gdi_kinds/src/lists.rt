use crate::{
    Atom, Call, CommandWord, EdgeLine, Line, ListOf, Name, NamedBytes, Pair, PropLine, Reply, Txn,
    Value,
};

/// Bytes, as a file or a text has them.
pub type Bytes = ListOf<u8>;

/// Numbers of 32 bits, as those of labels and property types.
pub type U32List = ListOf<u32>;

/// Numbers of 64 bits, as identifiers.
pub type NumList = ListOf<u64>;

/// Files by name.
pub type FileList = ListOf<NamedBytes>;

/// The words of a command line, after the program's name.
pub type CommandWordList = ListOf<CommandWord>;

/// Names of labels.
pub type NameList = ListOf<Name>;

/// Properties with their names.
pub type PropList = ListOf<PropLine>;

/// The values of a property whose type is marked. A value may stand there again.
pub type ValueList = ListOf<Value>;

/// Ends of edges, as seen from one vertex.
pub type EdgeList = ListOf<EdgeLine>;

/// Identifiers, each with a number.
pub type PairList = ListOf<Pair>;

/// Atoms of a constraint that all have to pass.
pub type AtomList = ListOf<Atom>;

/// A constraint: it passes if all atoms of one of its alternatives pass.
pub type Test = ListOf<AtomList>;

/// The calls of a transaction, in order.
pub type CallList = ListOf<Call>;

/// The replies of a transaction, one a call.
pub type ReplyList = ListOf<Reply>;

/// A section: transactions that one rank runs in their order.
pub type Section = ListOf<Txn>;

/// A script: its sections in order.
pub type Script = ListOf<Section>;

/// Outcomes with their places in the script.
pub type LineList = ListOf<Line>;
