ghost use Rattle.command_words.specs.declared.command.Command.TheVariants.{Run};
ghost use Rattle.gdi_run.specs.Answer.{EndsCommand};

use crate::Status;
use crate::reading::read_files;
use crate::refusals::status_of;
use command_words::Source;
use gdi_io::{Shelf, Sink, write_all};
use plain_run::run_texts;
use std::alloc::Global;

/// Loads, runs a script and writes what that prints.
pub(crate) fn run_files<F: Shelf, K: Sink>(
    alloc: Global,
    source: &Source,
    script: &str,
    shelf: &mut F,
    out: &mut K,
) -> Status
    ensures { EndsCommand (F.told shelf.old) (F.told shelf.new) (Run source.now script.entry) (K.taken out.old) (K.taken out.new) result }
{
    let files = match read_files(alloc, shelf, source, script) {
        Ok(files) => files,
        Err(status) => return status,
    };
    let output = match run_texts(alloc, source.geometry, &files.texts()) {
        Ok(output) => output,
        Err(refused) => return status_of(refused),
    };
    match write_all(out, output.as_slice()) {
        Ok(()) => Status::Done,
        Err(_) => Status::WriteFault,
    }
}
