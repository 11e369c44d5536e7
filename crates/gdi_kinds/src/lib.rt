//! The values, calls and replies of the database as plain data, and the lists that they stand in.
#![tactic(auto)]

mod call;
mod command_word;
mod constraint;
mod duplicate;
mod edge_line;
mod list_of;
mod lists;
mod name;
mod named_bytes;
mod no_memory;
mod outcome;
mod pair;
mod prop_line;
mod reply;
mod text;
mod txn;
mod value;

pub use call::{Call, Dir};
pub use command_word::CommandWord;
pub use constraint::{Atom, Op};
pub use duplicate::Duplicate;
pub use edge_line::EdgeLine;
pub use list_of::ListOf;
pub use lists::{
    AtomList, Bytes, CallList, CommandWordList, EdgeList, FileList, LineList, NameList, NumList,
    PairList, PropList, ReplyList, Script, Section, Test, U32List, ValueList,
};
pub use name::Name;
pub use named_bytes::NamedBytes;
pub use no_memory::NoMemory;
pub use outcome::{Line, Outcome, Printed};
pub use pair::Pair;
pub use prop_line::PropLine;
pub use reply::Reply;
pub use text::{Text, Unfit};
pub use txn::Txn;
pub use value::{Kind, Value};
