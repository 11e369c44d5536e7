use gdi_kinds::{Bytes, NoMemory};
use outcome_text::{OutputRefused, print_outcomes, read_outcomes};
use std::alloc::Global;

/// Whether a text is an output, and what is read of it is printed as this text.
pub(crate) fn keeps_output(alloc: Global, text: &[u8]) -> Result<bool, NoMemory> {
    match read_outcomes(alloc, text) {
        Ok(run) => Ok(print_outcomes(alloc, &run)?.as_slice() == text),
        Err(_) => Ok(false),
    }
}

/// Whether a text is refused as an output at this line, or is one where the line is 0.
pub(crate) fn is_output_refused(alloc: Global, text: &[u8], line: u64) -> bool {
    match read_outcomes(alloc, text) {
        Ok(_) => line == 0,
        Err(refused) => refused == OutputRefused::Bad { line },
    }
}

/// The text that is printed of the run whose text this is.
pub(crate) fn output_again(alloc: Global, text: &[u8]) -> Result<Bytes, OutputRefused> {
    let run = read_outcomes(alloc, text)?;
    Ok(print_outcomes(alloc, &run)?)
}
