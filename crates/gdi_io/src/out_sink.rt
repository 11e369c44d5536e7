ghost use Rattle.std.specs.Prelude.{◌≡◌};
ghost use Rattle.gdi_io.specs.Sink.{untold};

use crate::{Failed, Sink};

/// A sink that writes to standard output, with nothing held back.
///
/// It doesn't tell what was taken. Each error of the system counts as a fault, and so does a write that takes nothing;
/// at the last number of 64 bits the count stays.
#[derive(Drop)]
pub struct OutSink<'a, R: Print> {
    rt: &'a R,
    faults: u64,
}

impl<'a, R: Print> OutSink<'a, R> {
    /// The sink of this runtime's output.
    pub fn new(rt: &'a R) -> OutSink<'a, R>
        ensures { ⟦<OutSink<'a, R> as Sink>⟧.taken result ≡ untold 0 }
    {
        OutSink { rt, faults: 0 }
    }
}

impl<'a, R: Print> Sink for OutSink<'a, R> {
    ghost taken = { λ sink. untold sink.faults };

    fn write(&mut self, bytes: &[u8]) -> Result<usize, Failed> {
        match self.rt.write_some(bytes) {
            Ok(count) if count > 0 => Ok(count),
            _ => {
                self.faults = self.faults.saturating_add(1);
                Err(Failed)
            }
        }
    }
}
