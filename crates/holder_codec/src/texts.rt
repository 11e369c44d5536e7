ghost use Rattle.std.specs.Prelude.{◌≡◌, ◌≤◌, ◌++◌, length, OnOk, IfOk};
ghost use Rattle.std.specs.Int.{w64, from_le_bytes};
ghost use Rattle.holder_codec.specs.Reading.{Gives, bytes_of, bytes_at, text_at, are_zero};
ghost use Rattle.holder_codec.specs.Texts.{byte_words};

use crate::unread::Unread;
use gdi_kinds::{NoMemory, Text};
use object_words::Words;
use std::alloc::{AllocError, Global};

/// Puts bytes at the end, in whole words.
pub(crate) fn write_bytes(bytes: &[u8], out: &mut Words) -> Result<(), NoMemory>
    ensures { OnOk result (out.new ≡ out.old ++ byte_words bytes.now) }
{
    let mut rest = bytes;
    while !rest.is_empty() {
        let (front, after) = rest.split_at(rest.len().min(8));
        out.push(word_of(front))?;
        rest = after;
    }
    Ok(())
}

/// The word of at most 8 bytes, the first one lowest.
fn word_of(bytes: &[u8]) -> u64
    requires { length bytes.now ≤ 8 }
    ensures { result ≡ from_le_bytes w64 bytes.now }
{
    let mut field = [0; 8];
    field[..bytes.len()].copy_from_slice(bytes);
    u64::from_le_bytes(field)
}

/// So many bytes that the words begin with.
#[tactic(auto, unfolding(crate::specs::Reading::bytes_at))]
pub(crate) fn read_bytes(alloc: Global, count: u64, words: &mut &[u64]) -> Result<Vec<u8>, Unread>
    ensures { Gives (λ bytes. (bytes.items, words.new.now)) result (bytes_at count words.old.now) }
{
    let whole = count.div_ceil(8);
    if (words.len() as u64) < whole {
        return Err(Unread::NotSpelled);
    }
    let (front, rest) = words.split_at(whole as usize);
    let mut bytes = bytes_of(alloc, front)?;
    let (_, unused) = bytes.as_slice().split_at(count as usize);
    if !are_zero(unused) {
        return Err(Unread::NotSpelled);
    }
    bytes.truncate(count as usize);
    *words = rest;
    Ok(bytes)
}

/// The bytes of words, 8 a word, the lowest first.
fn bytes_of(alloc: Global, words: &[u64]) -> Result<Vec<u8>, AllocError>
    ensures { IfOk result (λ bytes. bytes.items ≡ bytes_of words.now) }
{
    let mut bytes = Vec::new(alloc);
    for word in words {
        bytes.extend_from_slice(&word.to_le_bytes())?;
    }
    Ok(bytes)
}

fn are_zero(bytes: &[u8]) -> bool
    ensures { result ≡ are_zero bytes.now }
{
    bytes.iter().all(|b| *b == 0)
}

/// The text of so many bytes that the words begin with.
#[tactic(auto, unfolding(crate::specs::Reading::text_at))]
pub(crate) fn read_text(alloc: Global, count: u64, words: &mut &[u64]) -> Result<Text, Unread>
    ensures { Gives (λ text. (text, words.new.now)) result (text_at count words.old.now) }
{
    let bytes = read_bytes(alloc, count, words)?;
    Ok(Text::of(alloc, bytes.as_slice())?)
}
