ghost use Rattle.std.specs.Prelude.{◌≡◌};
ghost use Rattle.std.specs.IoError.{error_kind};
ghost use Rattle.gdi_shell.specs.Faults.{status_of};

use gdi_kinds::{CommandWord, CommandWordList, NoMemory};
use gdi_run::{Status, UsageKind};
use std::alloc::Global;
use std::rt::Env;
use std::{env, io};

/// The words after the program's name. Words that aren't Unicode are a faulty command line.
pub(crate) fn words_of<R: Env + Alloc<A = Global>>(rt: &R) -> Result<CommandWordList, Status> {
    match env::args(rt) {
        Ok(args) => list_of(rt.alloc(), args).map_err(no_memory),
        Err(error) => Err(status_of(error)),
    }
}

// The arguments but the first, which is the program's name.
fn list_of(alloc: Global, args: env::Args<Global>) -> Result<CommandWordList, NoMemory> {
    let mut words = CommandWordList::new(alloc);
    for arg in args.skip(1) {
        words.push(CommandWord::of(alloc, arg.as_str())?)?;
    }
    Ok(words)
}

fn no_memory(_refused: NoMemory) -> Status
    ensures { result ≡ Status.NoMemory }
{
    Status::NoMemory
}

fn status_of(error: io::Error) -> Status
    ensures { result ≡ status_of (error_kind error) }
{
    match error.kind() {
        io::ErrorKind::OutOfMemory => Status::NoMemory,
        _ => Status::Usage(UsageKind::Words),
    }
}
