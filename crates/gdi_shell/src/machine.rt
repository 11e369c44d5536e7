// A machine of a test: the words that it was started with, and what it has printed.
use std::alloc::Global;
use std::cell::RefCell;
use std::env::FillError;
use std::fmt::{Display, Write};
use std::io;
use std::rt::Env;

#[derive(Drop)]
pub(crate) struct Machine<'a> {
    alloc: Global,
    words: &'a [&'a str],
    output: RefCell<Vec<u8>>,
    errors: RefCell<String>,
}

impl<'a> Machine<'a> {
    pub(crate) fn started_with(alloc: Global, words: &'a [&'a str]) -> Machine<'a> {
        Machine {
            alloc,
            words,
            output: RefCell::new(Vec::new(alloc)),
            errors: RefCell::new(String::new(alloc)),
        }
    }

    // What it wrote, and the lines of its errors.
    pub(crate) fn printed(self) -> (Vec<u8>, String) {
        (self.output.into_inner(), self.errors.into_inner())
    }
}

fn refused() -> io::Error {
    io::Error::from(io::ErrorKind::Unsupported)
}

impl Alloc for Machine<'_> {
    type A = Global;

    fn alloc(&self) -> Global {
        self.alloc
    }
}

impl Env for Machine<'_> {
    fn arg(&self, i: usize, buf: &mut [u8]) -> Result<usize, FillError> {
        let word = match self.words.get(i) {
            Some(word) => word.as_bytes(),
            None => return Err(FillError::NotPresent),
        };
        if word.len() > buf.len() {
            return Err(FillError::TooLong);
        }
        buf[..word.len()].copy_from_slice(word);
        Ok(word.len())
    }

    fn var(&self, _name: &str, _buf: &mut [u8]) -> Result<usize, FillError> {
        Err(FillError::NotPresent)
    }

    fn var_at(&self, _i: usize, _buf: &mut [u8]) -> Result<usize, FillError> {
        Err(FillError::NotPresent)
    }
}

impl Print for Machine<'_> {
    fn print<D: Display + Drop>(&self, _value: D) -> io::Result<()> {
        Err(refused())
    }

    fn println<D: Display + Drop>(&self, _value: D) -> io::Result<()> {
        Err(refused())
    }

    fn write_all(&self, bytes: &[u8]) -> io::Result<()> {
        let Ok(mut output) = self.output.try_borrow_mut() else {
            return Err(refused());
        };
        Ok(output.extend_from_slice(bytes)?)
    }
}

impl Eprint for Machine<'_> {
    fn eprint<D: Display + Drop>(&self, _value: D) -> io::Result<()> {
        Err(refused())
    }

    fn eprintln<D: Display + Drop>(&self, value: D) -> io::Result<()> {
        let Ok(mut errors) = self.errors.try_borrow_mut() else {
            return Err(refused());
        };
        writeln!(errors, "{value}").map_err(|_error| refused())
    }
}
