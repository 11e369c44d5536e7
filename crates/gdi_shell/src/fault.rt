ghost use Rattle.std.specs.Prelude.{◌≡◌};
ghost use Rattle.gdi_shell.specs.Faults.{fault_of, exit_number};

use gdi_run::{FileKind, Status};
use thiserror::Error;

/// Why the program ends with a number other than 0. Its text is the line on standard error.
#[derive(Debug, Drop, Error)]
pub enum Fault {
    #[error("gdi_shell: usage: run, check, report or drill")]
    Usage,
    #[error("gdi_shell: cannot read {0}")]
    Read(FileKind),
    #[error("gdi_shell: {0} is too long")]
    TooLong(FileKind),
    #[error("gdi_shell: {file} row {row} fault {kind}")]
    BadLoad { file: FileKind, row: u64, kind: u32 },
    #[error("gdi_shell: script line {line} fault {kind}")]
    BadScript { line: u64, kind: u32 },
    #[error("gdi_shell: {file} needs more blocks on rank {rank}")]
    LoadFull { file: FileKind, rank: u16 },
    #[error("gdi_shell: cannot write")]
    Write,
    #[error("gdi_shell: illegal by clause {clause} at {section}.{txn}")]
    Illegal { clause: u32, section: u64, txn: u64 },
    #[error("gdi_shell: no memory")]
    NoMemory,
    #[error("gdi_shell: output line {line}")]
    BadOutput { line: u64 },
}

impl Fault {
    /// The fault that a status is; `Done` is none.
    pub fn of(status: Status) -> Option<Fault>
        ensures { result ≡ fault_of status }
    {
        match status {
            Status::Done => None,
            Status::Usage(_) => Some(Fault::Usage),
            Status::ReadFault(file) => Some(Fault::Read(file)),
            Status::TooLong(file) => Some(Fault::TooLong(file)),
            Status::BadLoad { file, row, kind } => Some(Fault::BadLoad { file, row, kind }),
            Status::BadScript { line, kind } => Some(Fault::BadScript { line, kind }),
            Status::BadOutput { line } => Some(Fault::BadOutput { line }),
            Status::LoadFull { file, rank } => Some(Fault::LoadFull { file, rank }),
            Status::WriteFault => Some(Fault::Write),
            Status::Illegal {
                clause,
                section,
                txn,
            } => Some(Fault::Illegal {
                clause,
                section,
                txn,
            }),
            Status::NoMemory => Some(Fault::NoMemory),
        }
    }

    /// The number that the program ends with.
    pub fn exit_number(&self) -> u8
        ensures { result ≡ exit_number self.now }
    {
        match self {
            Fault::Usage => 2,
            Fault::Read(_) => 3,
            Fault::TooLong(_) => 4,
            Fault::BadLoad { .. } => 5,
            Fault::BadScript { .. } => 6,
            Fault::LoadFull { .. } => 7,
            Fault::Write => 8,
            Fault::Illegal { .. } => 9,
            Fault::NoMemory => 10,
            Fault::BadOutput { .. } => 11,
        }
    }
}
