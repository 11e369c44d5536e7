ghost use Rattle.std.specs.Prelude.{◌≡◌, ◌<◌, length};
ghost use Rattle.gdi_io.specs.MemSink.{MemWrites, taken_of, unwritten};
ghost use Rattle.gdi_io.specs.Sink.{Writes};

use crate::failing_calls::FailingCalls;
use crate::{Failed, Sink};
use gdi_kinds::NumList;
use std::alloc::Global;
use std::marker::Model;

/// A sink that keeps its bytes in memory, and some of whose calls fail.
///
/// It takes of each piece as many bytes as its limit still allows, which counts the bytes of all pieces together.
/// Calls are numbered from 0. A call fails whose number is listed, where the limit allows no byte, or for want of
/// memory. Each failure counts as a fault. The counts of calls and of faults stay at the last number of 64 bits.
#[derive(Drop)]
pub struct MemSink {
    kept: Vec<u8>,
    room: u64,
    calls: FailingCalls,
    faults: u64,
}

impl Model for MemSink {
    ghost use Rattle.gdi_io.specs.MemSink.{MemBytes};

    ghost Value = { MemBytes };

    ghost view = { λ sink. record {
      kept = sink.kept.items;
      room = sink.room;
      fails = sink.calls.numbers;
      calls = sink.calls.next;
      faults = sink.faults;
    } };
}

impl MemSink {
    /// A sink of at most `limit` bytes, whose calls with these numbers fail. It takes no memory.
    pub fn new(alloc: Global, limit: u64, fails: NumList) -> MemSink
        ensures { result ≡ unwritten limit fails }
    {
        MemSink {
            kept: Vec::new(alloc),
            room: limit,
            calls: FailingCalls::new(fails),
            faults: 0,
        }
    }

    /// The bytes taken so far.
    pub fn bytes(&self) -> &[u8]
        ensures { result.now ≡ self.now.kept }
    {
        self.kept.as_slice()
    }
}

impl Sink for MemSink {
    ghost taken = { taken_of };

    fn write(&mut self, bytes: &[u8]) -> Result<usize, Failed>
        requires { 0 < length bytes.now }
        ensures writes { Writes (taken_of self.old) (taken_of self.new) bytes.now result }
        ensures exactly { MemWrites self.old self.new bytes.now result }
    {
        let listed = self.calls.count_call();
        let count = self.room.min(bytes.len() as u64);
        let piece = &bytes[..count as usize];
        if listed || count == 0 || self.kept.extend_from_slice(piece).is_err() {
            self.faults = self.faults.saturating_add(1);
            return Err(Failed);
        }
        self.room -= count;
        Ok(piece.len())
    }
}
