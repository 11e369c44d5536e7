use command_words::UsageKind;
use std::fmt;

/// Which of a command's files is meant.
#[derive(Clone, Copy, Debug, PartialEq, Eq)]
pub enum FileKind {
    Vertices,
    Edges,
    Script,
    Output,
}

/// How a command ended.
#[derive(Clone, Copy, Debug, PartialEq, Eq)]
pub enum Status {
    /// All was written.
    Done,
    Usage(UsageKind),
    /// A file couldn't be read.
    ReadFault(FileKind),
    /// A file has more than 67,108,864 bytes.
    TooLong(FileKind),
    /// The first wrong record of a load file, from 1; row 0 is the header or the whole file.
    BadLoad { file: FileKind, row: u64, kind: u32 },
    /// The first wrong line of the script, from 1, and the kind of its fault.
    BadScript { line: u64, kind: u32 },
    /// The first wrong line of an output, from 1.
    BadOutput { line: u64 },
    /// A rank has too few blocks for what a load file holds.
    LoadFull { file: FileKind, rank: u16 },
    /// The output couldn't be written; a part from its front may have been.
    WriteFault,
    /// The output isn't legal: the first clause that fails, and the first outcome where it does.
    Illegal { clause: u32, section: u64, txn: u64 },
    NoMemory,
}

impl fmt::Display for FileKind {
    fn fmt<W: fmt::Write>(&self, f: &mut fmt::Formatter<W>) -> fmt::Result {
        match self {
            FileKind::Vertices => write!(f, "vertices"),
            FileKind::Edges => write!(f, "edges"),
            FileKind::Script => write!(f, "script"),
            FileKind::Output => write!(f, "output"),
        }
    }
}
