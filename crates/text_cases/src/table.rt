use crate::loads::is_load_refused;
use crate::outputs::{is_output_refused, keeps_output};
use crate::scripts::{is_refused, keeps_script};
use crate::unescaped::{push_unescaped, unescaped};
use bulk_load::LoadFile;
use gdi_kinds::NoMemory;
use std::alloc::Global;
use text_words::{number_of, opening_of};

/// What the lines of a table tell. A text is written with `\n` for the end of a line, `\\` for a backslash and `\xHH`
/// for any byte.
#[derive(Clone, Copy)]
pub(crate) enum Table {
    /// A script that is printed as it stands.
    Scripts,
    /// The first wrong line, its kind, and the text. Two zeros: the text is a script.
    ScriptFaults,
    /// The same, with three texts behind the kind: the second stands as often between the others as the number in front
    /// of them says, and `|` between them.
    ScriptLimits,
    /// An output that is printed as it stands.
    Outputs,
    /// The first wrong line and the text. A zero: the text is an output.
    OutputFaults,
    /// The first wrong record of a file of vertices, its kind, and three texts as for `ScriptLimits`. Two zeros: the file
    /// is read.
    Vertices,
    /// The same of a file of edges, read behind two vertices.
    Edges,
}

/// Whether a line of a table holds.
pub(crate) fn holds(alloc: Global, table: Table, line: &[u8]) -> Result<bool, NoMemory> {
    match table {
        Table::Scripts => keeps_script(alloc, unescaped(alloc, line)?.as_slice()),
        Table::ScriptFaults => {
            let Some((number, kind, text)) = fault_in(line) else {
                return Ok(false);
            };
            let text = unescaped(alloc, text)?;
            Ok(is_refused(alloc, text.as_slice(), number, kind))
        }
        Table::ScriptLimits => {
            let Some((number, kind, text)) = repeated_fault_in(alloc, line)? else {
                return Ok(false);
            };
            Ok(is_refused(alloc, text.as_slice(), number, kind))
        }
        Table::Outputs => keeps_output(alloc, unescaped(alloc, line)?.as_slice()),
        Table::OutputFaults => {
            let Some((number, text)) = number_in(line) else {
                return Ok(false);
            };
            let text = unescaped(alloc, text)?;
            Ok(is_output_refused(alloc, text.as_slice(), number))
        }
        Table::Vertices => is_load_refused_as(alloc, LoadFile::Vertices, line),
        Table::Edges => is_load_refused_as(alloc, LoadFile::Edges, line),
    }
}

fn is_load_refused_as(alloc: Global, file: LoadFile, line: &[u8]) -> Result<bool, NoMemory> {
    let Some((row, kind, text)) = repeated_fault_in(alloc, line)? else {
        return Ok(false);
    };
    is_load_refused(alloc, file, text.as_slice(), row, kind)
}

// The number of a line or a record, the kind of what is wrong there, and the text of three in which the second stands as
// often as is said.
fn repeated_fault_in(alloc: Global, line: &[u8]) -> Result<Option<(u64, u32, Vec<u8>)>, NoMemory> {
    let Some((number, kind, rest)) = fault_in(line) else {
        return Ok(None);
    };
    let Some((times, parts)) = number_in(rest) else {
        return Ok(None);
    };
    let text = repeated(alloc, times, parts)?;
    Ok(Some((number, kind, text)))
}

// The number of a line and the kind of what is wrong there, and what stands behind them.
fn fault_in(line: &[u8]) -> Option<(u64, u32, &[u8])> {
    let (number, rest) = number_in(line)?;
    let (kind, text) = number_in(rest)?;
    Some((number, u32::try_from(kind).ok()?, text))
}

// The number that a line begins with, and what stands behind it.
fn number_in(line: &[u8]) -> Option<(u64, &[u8])> {
    let (word, rest) = opening_of(line);
    Some((number_of(word)?, rest?))
}

// Of three texts the first, the second so many times, and the third.
fn repeated(alloc: Global, times: u64, parts: &[u8]) -> Result<Vec<u8>, NoMemory> {
    let mut text = Vec::new(alloc);
    for (index, part) in parts.split(|b| *b == b'|').enumerate() {
        for _ in 0..if index == 1 { times } else { 1 } {
            push_unescaped(&mut text, part)?;
        }
    }
    Ok(text)
}
