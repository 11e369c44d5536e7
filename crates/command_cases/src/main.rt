//! Reads command lines, each a line of words, and prints what each asks for or why it is none.
#![tactic(auto)]

use command_words::{CommandName, read_words};
use std::alloc::{AllocError, Global};
use std::rt::Files;
use std::{fs, io};

fn main(rt: HostRuntime) -> io::Result<()> {
    let text = fs::read_to_string(&rt, "command_lines")?;
    for line in text.lines() {
        print_meaning(&rt, line)?;
    }
    Ok(())
}

fn print_meaning<R: Files + Alloc<A = Global> + Print>(rt: &R, line: &str) -> io::Result<()> {
    let words = match words_of(rt.alloc(), line) {
        Ok(words) => words,
        Err(AllocError) => return Err(io::ErrorKind::OutOfMemory.into()),
    };
    let [first, others @ ..] = words.as_slice() else {
        return println!(rt; "no command");
    };
    match CommandName::of(first) {
        Some(name) => match read_words(rt.alloc(), name, others) {
            Ok(command) => println!(rt; "{command:?}"),
            Err(refused) => println!(rt; "{refused:?}"),
        },
        None => println!(rt; "no command"),
    }
}

// The words between single spaces. A line that is empty has none.
fn words_of(alloc: Global, line: &str) -> Result<Vec<&str>, AllocError> {
    let mut words = Vec::new(alloc);
    if !line.is_empty() {
        for word in line.split(' ') {
            words.push(word)?;
        }
    }
    Ok(words)
}
