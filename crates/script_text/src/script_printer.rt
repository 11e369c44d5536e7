ghost use Rattle.std.specs.Prelude.{◌≡◌, ◌++◌, ◌∷◌, [], IfOk, OnOk};
ghost use Rattle.std.specs.List.{flat_map};
ghost use Rattle.script_text.specs.Faults.{SpellsAlone};
ghost use Rattle.script_text.specs.Scripts.{IsScript, script_text, step_text, steps_of_section, steps_of_txn};

use crate::call_printer::print_call;
use gdi_kinds::{Bytes, Call, NoMemory, Script, Section, Txn};
use std::alloc::Global;

/// The text of a script: each line ends with LF, and none is skipped. Of a script within the limits, whose transactions
/// hold the calls that they may hold, it is a text that is read as this script.
pub fn print_script(alloc: Global, script: &Script) -> Result<Bytes, NoMemory>
    ensures text { IfOk result (λ bytes. bytes ≡ script_text script.now) }
    ensures spelled { IsScript script.now → IfOk result (λ bytes. SpellsAlone bytes script.now) }
{
    let mut out = Vec::new(alloc);
    for section in script.as_slice() {
        print_section(&mut out, section)?;
    }
    Ok(Bytes::from_vec(out))
}

fn print_section(out: &mut Vec<u8>, section: &Section) -> Result<(), NoMemory>
    ensures { OnOk result (out.new.items ≡ out.old.items ++ flat_map step_text (steps_of_section section.now)) }
{
    out.extend_from_slice(b"section\n")?;
    for txn in section.as_slice() {
        print_txn(out, txn)?;
    }
    Ok(())
}

fn print_txn(out: &mut Vec<u8>, txn: &Txn) -> Result<(), NoMemory>
    ensures { OnOk result (out.new.items ≡ out.old.items ++ flat_map step_text (steps_of_txn txn.now)) }
{
    out.extend_from_slice(if txn.whole { b"all\n" } else { b"txn\n" })?;
    for call in txn.calls.as_slice() {
        print_call(out, call)?;
        out.push(b'\n')?;
    }
    Ok(out.extend_from_slice(if txn.aborts { b"abort\n" } else { b"end\n" })?)
}
