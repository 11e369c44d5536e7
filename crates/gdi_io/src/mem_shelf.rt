ghost use Rattle.std.specs.Prelude.{◌≡◌, ◌<◌, length, min, take};
ghost use Rattle.std.specs.Str.{bytes_eq};
ghost use Rattle.gdi_io.specs.Files.{bytes_at, file_place};
ghost use Rattle.gdi_io.specs.MemShelf.{MemReads, MemSelects, told_of, untouched};
ghost use Rattle.gdi_io.specs.Shelf.{Reads, Selects};

use crate::failing_calls::FailingCalls;
use crate::{Failed, Shelf};
use gdi_kinds::{FileList, NamedBytes, NumList};
use std::marker::Model;

/// A shelf over files in memory, some of whose calls fail.
///
/// Calls of `select` and `read` are numbered together, from 0, and those whose number is listed fail. So does `select`
/// of a name that isn't held. Each failure counts as a fault. A `read` that doesn't fail gives as much of what is left
/// as the piece holds. Of a name that stands twice the first counts. The counts of calls, of faults and of bytes given
/// stay at the last number of 64 bits.
#[derive(Drop)]
pub struct MemShelf {
    files: FileList,
    calls: FailingCalls,
    faults: u64,
    halted: bool,
    given: u64,
    at: Option<usize>,
    offset: usize,
}

impl Model for MemShelf {
    ghost use Rattle.std.specs.Prelude.{◌≤◌, drop, length};
    ghost use Rattle.gdi_io.specs.Files.{bytes_at};
    ghost use Rattle.gdi_io.specs.MemShelf.{MemFiles};

    ghost Value = { MemFiles };

    ghost view = { λ shelf. record {
      files = shelf.files;
      fails = shelf.calls.numbers;
      calls = shelf.calls.next;
      faults = shelf.faults;
      halted = shelf.halted;
      given = shelf.given;
      at = shelf.at;
      left = drop shelf.offset (bytes_at shelf.files shelf.at);
    } };

    ghost invariant = { λ shelf. shelf.offset ≤ length (bytes_at shelf.files shelf.at) };
}

impl MemShelf {
    /// A shelf of these files, whose calls with these numbers fail. No file is selected. It takes no memory.
    pub fn new(files: FileList, fails: NumList) -> MemShelf
        ensures { result ≡ untouched files fails }
    {
        MemShelf {
            files,
            calls: FailingCalls::new(fails),
            faults: 0,
            halted: false,
            given: 0,
            at: None,
            offset: 0,
        }
    }
}

impl Shelf for MemShelf {
    ghost told = { told_of };

    fn select(&mut self, name: &str) -> Result<(), Failed>
        ensures selects { Selects (told_of self.old) (told_of self.new) name.now result }
        ensures exactly { MemSelects self.old self.new name.now result }
    {
        let listed = self.calls.count_call();
        self.given = 0;
        self.offset = 0;
        self.at = file_place(&self.files, name.as_bytes());
        self.halted = listed || self.at.is_none();
        if self.halted {
            self.faults = self.faults.saturating_add(1);
            return Err(Failed);
        }
        Ok(())
    }

    fn read(&mut self, into: &mut [u8]) -> Result<usize, Failed>
        requires { 0 < length into.old }
        ensures reads { Reads (told_of self.old) (told_of self.new) into.new result }
        ensures exactly { MemReads self.old self.new into.new result }
    {
        self.halted = self.calls.count_call();
        if self.halted {
            self.faults = self.faults.saturating_add(1);
            return Err(Failed);
        }
        let count = copy_front(&bytes_at(&self.files, self.at)[self.offset..], into);
        self.offset += count;
        self.given = self.given.saturating_add(count as u64);
        Ok(count)
    }
}

// Copies as much of `from` as `into` holds to its front.
fn copy_front(from: &[u8], into: &mut [u8]) -> usize
    ensures count { result ≡ min (length into.old) (length from.now) }
    ensures front { take result into.new ≡ take result from.now }
{
    let count = into.len().min(from.len());
    into[..count].copy_from_slice(&from[..count]);
    count
}

// The place of the first file of a name.
fn file_place(files: &FileList, name: &[u8]) -> Option<usize>
    ensures { result ≡ file_place files.now name.now }
{
    files
        .as_slice()
        .iter()
        .position(|file| is_named(file, name))
}

fn is_named(file: &NamedBytes, name: &[u8]) -> bool
    ensures { result ≡ bytes_eq file.now.name name.now }
{
    file.name.as_slice() == name
}

// What the file at a place holds: nothing at no place.
fn bytes_at(files: &FileList, at: Option<usize>) -> &[u8]
    ensures { result.now ≡ bytes_at files.now at }
{
    let Some(place) = at else {
        return &[];
    };
    match files.as_slice().get(place) {
        Some(file) => file.bytes.as_slice(),
        None => &[],
    }
}
