//! The program: it hands the words of the command line, files and standard output to the top call, and ends with the
//! status that this answers.
#![tactic(auto)]

mod ending;
mod fault;
#[cfg(test)]
mod machine;
#[cfg(test)]
mod tests;
mod words;

use ending::tell;
use gdi_io::{FolderShelf, OutSink};
use gdi_run::{Status, gdi_main};
use std::alloc::Global;
use std::process::ExitCode;
use std::rt::{Env, Files};
use words::words_of;

fn main(rt: HostRuntime) -> ExitCode {
    ExitCode::from(program(&rt, &rt))
}

// Does what the words ask for, tells a fault as one line among the errors, and answers the number to end with.
fn program<R: Env + Alloc<A = Global> + Print + Eprint, F: Files>(rt: &R, files: &F) -> u8 {
    tell(rt, run(rt, files))
}

fn run<R: Env + Alloc<A = Global> + Print, F: Files>(rt: &R, files: &F) -> Status {
    let words = match words_of(rt) {
        Ok(words) => words,
        Err(status) => return status,
    };
    let mut shelf = FolderShelf::new(files);
    let mut out = OutSink::new(rt);
    gdi_main(rt.alloc(), &words, &mut shelf, &mut out)
}
