ghost use Rattle.std.specs.Prelude.{◌<◌, ◌≤◌};
ghost use Rattle.gdi_io.specs.Shelf.{Told};
ghost use Rattle.command_words.specs.declared.command.Command.TheVariants.{Drill};
ghost use Rattle.gdi_run.specs.Answer.{EndsCommand};

use crate::Status;
use crate::refusals::status_of;
use drill_run::{drill_geometry, run_drill};
use gdi_io::{Sink, write_all};
use std::alloc::Global;

/// Makes and runs a drill of a size, 1 to 10,000, from a seed, and writes what there is to tell of it. It reads no file.
pub(crate) fn tell_drill<K: Sink>(alloc: Global, size: u64, seed: u64, out: &mut K) -> Status
    requires some { 0 < size }
    requires few { size ≤ 10000 }
    ensures { (shelf : Told) → EndsCommand shelf shelf (Drill size seed) (K.taken out.old) (K.taken out.new) result }
{
    let summary = match run_drill(alloc, drill_geometry(), size, seed) {
        Ok(summary) => summary,
        Err(refused) => return status_of(refused),
    };
    match write_all(out, summary.as_slice()) {
        Ok(()) => Status::Done,
        Err(_) => Status::WriteFault,
    }
}
