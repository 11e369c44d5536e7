use gdi_kinds::NoMemory;
use std::alloc::Global;

/// The bytes that a text of a table stands for.
pub(crate) fn unescaped(alloc: Global, text: &[u8]) -> Result<Vec<u8>, NoMemory> {
    let mut bytes = Vec::new(alloc);
    push_unescaped(&mut bytes, text)?;
    Ok(bytes)
}

// What the byte in front left open.
#[derive(Clone, Copy)]
enum Escape {
    None,
    Backslash,
    FirstDigit,
    SecondDigit(u8),
}

/// Adds the bytes that a text of a table stands for.
pub(crate) fn push_unescaped(bytes: &mut Vec<u8>, text: &[u8]) -> Result<(), NoMemory> {
    let mut escape = Escape::None;
    for byte in text {
        escape = match (escape, *byte) {
            (Escape::None, b'\\') => Escape::Backslash,
            (Escape::Backslash, b'x') => Escape::FirstDigit,
            (Escape::FirstDigit, digit) => Escape::SecondDigit(hex(digit)),
            (Escape::Backslash, b'n') => {
                bytes.push(b'\n')?;
                Escape::None
            }
            (Escape::SecondDigit(first), digit) => {
                bytes.push(first << 4 | hex(digit))?;
                Escape::None
            }
            (Escape::None | Escape::Backslash, other) => {
                bytes.push(other)?;
                Escape::None
            }
        };
    }
    Ok(())
}

// The value of a hexadecimal digit.
fn hex(digit: u8) -> u8 {
    match digit {
        b'0'..=b'9' => digit - b'0',
        b'a'..=b'f' => digit - b'a' + 10,
        _ => 0,
    }
}
