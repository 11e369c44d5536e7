ghost use Rattle.std.specs.Prelude.{◌<◌, length};
ghost use Rattle.gdi_io.specs.Shelf.{Told, Selects, Reads};

use crate::Failed;

/// Files that are read by their names.
pub trait Shelf {
    /// What is known of it.
    ghost told: { Self → Told };

    /// Takes the file of this name as the one that is read, from its start. It fails only where the count of faults
    /// rises.
    fn select(&mut self, name: &str) -> Result<(), Failed>
        ensures { Selects (told self.old) (told self.new) name.now result };

    /// Fills the front of a piece with the next bytes of the file that was selected, and answers how many; 0 is the
    /// end. A read before any file was selected finds an empty one. After a fault nothing is known of what is left.
    fn read(&mut self, into: &mut [u8]) -> Result<usize, Failed>
        requires { 0 < length into.old }
        ensures { Reads (told self.old) (told self.new) into.new result };
}
