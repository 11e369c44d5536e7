ghost use Rattle.std.specs.Prelude.{◌≡◌, false, None};
ghost use Rattle.gdi_io.specs.Shelf.{silent};

use crate::{Failed, Shelf};
use std::fs;
use std::io::Read;
use std::rt::Files;

/// A shelf over the files of the system, by their paths.
///
/// It tells nothing of what they hold. `halted` and `given` are kept as every shelf's. Each error of the system counts
/// as a fault; at the last number of 64 bits the count stays. A read before any file was selected finds an empty one.
#[derive(Drop)]
pub struct FolderShelf<'a, R: Files> {
    rt: &'a R,
    file: Option<R::File>,
    faults: u64,
    halted: bool,
    given: u64,
}

impl<'a, R: Files> FolderShelf<'a, R> {
    /// The shelf of this runtime's files. No file is selected.
    pub fn new(rt: &'a R) -> FolderShelf<'a, R>
        ensures { ⟦<FolderShelf<'a, R> as Shelf>⟧.told result ≡ silent 0 false 0 }
    {
        FolderShelf {
            rt,
            file: None,
            faults: 0,
            halted: false,
            given: 0,
        }
    }
}

impl<'a, R: Files> Shelf for FolderShelf<'a, R> {
    ghost told = { λ shelf. silent shelf.faults shelf.halted shelf.given };

    fn select(&mut self, name: &str) -> Result<(), Failed> {
        self.given = 0;
        self.file = fs::open(self.rt, name).ok();
        self.halted = self.file.is_none();
        if self.halted {
            self.faults = self.faults.saturating_add(1);
            return Err(Failed);
        }
        Ok(())
    }

    fn read(&mut self, into: &mut [u8]) -> Result<usize, Failed> {
        let answer = match &mut self.file {
            Some(file) => file.read(into),
            None => Ok(0),
        };
        match answer {
            Ok(count) => {
                self.halted = false;
                self.given = self.given.saturating_add(count as u64);
                Ok(count)
            }
            Err(_) => {
                self.halted = true;
                self.faults = self.faults.saturating_add(1);
                Err(Failed)
            }
        }
    }
}
