ghost use Rattle.std.specs.Prelude.{◌<◌, length};
ghost use Rattle.gdi_io.specs.Sink.{Taken, Writes};

use crate::Failed;

/// Where bytes are written.
pub trait Sink {
    /// What is known of it.
    ghost taken: { Self → Taken };

    /// Takes bytes from the front of a piece, one at least, and answers how many. It fails only where the count of
    /// faults rises, and has then taken nothing.
    fn write(&mut self, bytes: &[u8]) -> Result<usize, Failed>
        requires { 0 < length bytes.now }
        ensures { Writes (taken self.old) (taken self.new) bytes.now result };
}
