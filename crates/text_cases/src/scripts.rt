use gdi_kinds::{Bytes, NoMemory};
use script_text::{ScriptRefused, print_script, read_script};
use std::alloc::Global;

/// Whether a text is a script that is printed as it stands.
pub(crate) fn keeps_script(alloc: Global, text: &[u8]) -> Result<bool, NoMemory> {
    match read_script(alloc, text) {
        Ok(script) => Ok(print_script(alloc, &script)?.as_slice() == text),
        Err(_) => Ok(false),
    }
}

/// Whether a text is refused at this line by this kind, or is a script where both are 0.
pub(crate) fn is_refused(alloc: Global, text: &[u8], line: u64, kind: u32) -> bool {
    match read_script(alloc, text) {
        Ok(_) => line == 0 && kind == 0,
        Err(refused) => refused == ScriptRefused::Bad { line, kind },
    }
}

/// The text that is printed of the script that a text spells.
pub(crate) fn printed_again(alloc: Global, text: &[u8]) -> Result<Bytes, ScriptRefused> {
    let script = read_script(alloc, text)?;
    Ok(print_script(alloc, &script)?)
}
