ghost use Rattle.std.specs.Prelude.{◌≡◌};
ghost use Rattle.gdi_shell.specs.Faults.{exit_number_of};

use crate::fault::Fault;
use gdi_run::Status;

/// Tells a fault as one line among the errors, and answers the number that the program ends with. An error that can't
/// be told changes nothing.
pub(crate) fn tell<E: Eprint>(errors: &E, status: Status) -> u8
    ensures { result ≡ exit_number_of status }
{
    match Fault::of(status) {
        None => 0,
        Some(fault) => {
            let _ = eprintln!(errors; "{fault}");
            fault.exit_number()
        }
    }
}
