ghost use Rattle.gdi_run.specs.Answer.{IsAnswer};

use crate::Status;
use crate::check::check_files;
use crate::drilling::tell_drill;
use crate::run::run_files;
use crate::words::{command_in, texts_of};
use command_words::{Command, UsageKind, WordsRefused, read_words};
use gdi_io::{Shelf, Sink};
use gdi_kinds::{CommandWordList, NoMemory};
use std::alloc::Global;

/// Does what the words of a command line ask for: reads from the shelf, writes to the sink, and answers how it ended.
///
/// `report` is answered as no command so far.
pub fn gdi_main<F: Shelf, K: Sink>(
    alloc: Global,
    words: &CommandWordList,
    shelf: &mut F,
    out: &mut K,
) -> Status
    ensures { IsAnswer words.now (F.told shelf.old) (F.told shelf.new) (K.taken out.old) (K.taken out.new) result }
{
    let Some((name, others)) = command_in(words.as_slice()) else {
        return Status::Usage(UsageKind::Command);
    };
    let others = match texts_of(alloc, others) {
        Ok(others) => others,
        Err(NoMemory) => return Status::NoMemory,
    };
    match read_words(alloc, name, others.as_slice()) {
        Ok(Command::Run { source, script }) => run_files(alloc, &source, script, shelf, out),
        Ok(
            Command::Check {
                source,
                script,
                output,
            },
        ) => check_files(alloc, &source, script, output, shelf, out),
        Ok(Command::Report { .. }) => Status::Usage(UsageKind::Command),
        Ok(Command::Drill { size, seed }) => tell_drill(alloc, size, seed, out),
        Err(WordsRefused::Usage(kind)) => Status::Usage(kind),
        Err(WordsRefused::NoMemory) => Status::NoMemory,
    }
}
