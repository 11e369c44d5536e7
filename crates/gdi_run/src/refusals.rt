ghost use Rattle.std.specs.Prelude.{◌≡◌};
ghost use Rattle.gdi_run.specs.Statuses.{kind_of_file, status_of, status_of_check, status_of_illegal};

use crate::{FileKind, Status};
use bulk_load::LoadFile;
use plain_check::CheckRefused;
use plain_run::RunRefused;
use run_check::Illegal;

/// How a command ends whose texts aren't run.
pub(crate) fn status_of(refused: RunRefused) -> Status
    ensures { result ≡ status_of refused }
{
    match refused {
        RunRefused::BadLoad { file, row, kind } => Status::BadLoad {
            file: kind_of_file(file),
            row,
            kind: kind.number(),
        },
        RunRefused::BadScript { line, kind } => Status::BadScript { line, kind },
        RunRefused::LoadFull { file, rank } => Status::LoadFull {
            file: kind_of_file(file),
            rank,
        },
        RunRefused::NoMemory => Status::NoMemory,
    }
}

/// How a check ends whose output isn't checked.
pub(crate) fn status_of_check(refused: CheckRefused) -> Status
    ensures { result ≡ status_of_check refused }
{
    match refused {
        CheckRefused::Texts(refused) => status_of(refused),
        CheckRefused::BadOutput { line } => Status::BadOutput { line },
    }
}

/// How a check ends whose output isn't legal.
pub(crate) fn status_of_illegal(illegal: Illegal) -> Status
    ensures { result ≡ status_of_illegal illegal }
{
    Status::Illegal {
        clause: illegal.clause.number(),
        section: illegal.place.section,
        txn: illegal.place.txn,
    }
}

fn kind_of_file(file: LoadFile) -> FileKind
    ensures { result ≡ kind_of_file file }
{
    match file {
        LoadFile::Vertices => FileKind::Vertices,
        LoadFile::Edges => FileKind::Edges,
    }
}
