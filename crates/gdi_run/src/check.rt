ghost use Rattle.command_words.specs.declared.command.Command.TheVariants.{Check};
ghost use Rattle.gdi_run.specs.Answer.{EndsCommand};

use crate::Status;
use crate::reading::read_check_files;
use crate::refusals::{status_of_check, status_of_illegal};
use command_words::Source;
use gdi_io::{Shelf, Sink, write_all};
use plain_check::check_texts;
use std::alloc::Global;

/// Says whether an output is legal for a load and a script, and writes so where it is.
pub(crate) fn check_files<F: Shelf, K: Sink>(
    alloc: Global,
    source: &Source,
    script: &str,
    output: &str,
    shelf: &mut F,
    out: &mut K,
) -> Status
    ensures { EndsCommand (F.told shelf.old) (F.told shelf.new) (Check source.now script.entry output.entry) (K.taken out.old) (K.taken out.new) result }
{
    let files = match read_check_files(alloc, shelf, source, script, output) {
        Ok(files) => files,
        Err(status) => return status,
    };
    let verdict = check_texts(
        alloc,
        source.geometry,
        &files.run.texts(),
        files.output.as_slice(),
    );
    match verdict {
        Ok(None) => {}
        Ok(Some(illegal)) => return status_of_illegal(illegal),
        Err(refused) => return status_of_check(refused),
    }
    match write_all(out, b"legal\n") {
        Ok(()) => Status::Done,
        Err(_) => Status::WriteFault,
    }
}
