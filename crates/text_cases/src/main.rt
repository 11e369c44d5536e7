//! Reads tables of texts, and prints how many of their lines hold: each text is read and printed, or refused, as its
//! line tells. A line that doesn't hold is printed with its number.
//!
//! With a word it is the name of a script's file, which is read as a script and printed. With a second word it is the name
//! of an output's file, which is read as an output and printed.
#![tactic(auto)]

mod loads;
mod outputs;
mod scripts;
mod table;
mod unescaped;

use gdi_kinds::NoMemory;
use outputs::output_again;
use scripts::printed_again;
use std::alloc::Global;
use std::io::Write;
use std::rt::Files;
use std::{env, fs, io};
use table::{Table, holds};

fn main(rt: HostRuntime) -> io::Result<()> {
    if let Some(name) = env::args(&rt)?.nth(1) {
        return if env::args(&rt)?.nth(2).is_some() {
            print_output_again(&rt, name.as_str())
        } else {
            print_again(&rt, name.as_str())
        };
    }
    check(&rt, "scripts", Table::Scripts)?;
    check(&rt, "script_faults", Table::ScriptFaults)?;
    check(&rt, "script_limits", Table::ScriptLimits)?;
    check(&rt, "outputs", Table::Outputs)?;
    check(&rt, "output_faults", Table::OutputFaults)?;
    check(&rt, "vertex_files", Table::Vertices)?;
    check(&rt, "edge_files", Table::Edges)
}

// Reads a file as a script and prints it.
fn print_again<R: Files + Alloc<A = Global> + Print>(rt: &R, name: &str) -> io::Result<()> {
    let text = fs::read(rt, name)?;
    match printed_again(rt.alloc(), text.as_slice()) {
        Ok(printed) => io::writer(rt).write_all(printed.as_slice()),
        Err(refused) => println!(rt; "{refused:?}"),
    }
}

// Reads a file as an output and prints it.
fn print_output_again<R: Files + Alloc<A = Global> + Print>(rt: &R, name: &str) -> io::Result<()> {
    let text = fs::read(rt, name)?;
    match output_again(rt.alloc(), text.as_slice()) {
        Ok(printed) => io::writer(rt).write_all(printed.as_slice()),
        Err(refused) => println!(rt; "{refused:?}"),
    }
}

// Prints how many lines of a table hold. Empty lines and those that begin with `#` are none.
fn check<R: Files + Alloc<A = Global> + Print>(rt: &R, name: &str, table: Table) -> io::Result<()> {
    let bytes = fs::read(rt, name)?;
    let mut held = 0u64;
    for (index, line) in bytes.as_slice().split(|b| *b == b'\n').enumerate() {
        if matches!(line, [] | [b'#', ..]) {
            continue;
        }
        match holds(rt.alloc(), table, line) {
            Ok(true) => held = held.saturating_add(1),
            Ok(false) => println!(rt; "{name}: wrong behind line {index}")?,
            Err(NoMemory) => return Err(io::ErrorKind::OutOfMemory.into()),
        }
    }
    println!(rt; "{name}: {held} hold")
}
