ghost use Rattle.std.specs.Prelude.{◌≡◌, ◌↔◌, Err, IfOk};
ghost use Rattle.std.specs.List.{list_all};
ghost use Rattle.gdi_kinds.specs.Texts.{IsText, is_printable};
ghost use Rattle.gdi_kinds.specs.declared.text.Unfit.TheVariants.{NotText, NoMemory};

use crate::{Duplicate, NoMemory};
use std::alloc::{AllocError, Global};
use std::marker::Model;

/// The text of a property: UTF-8 of at most 255 bytes, seen as these bytes. No byte is below 32 or is 127.
#[derive(Debug, Drop)]
pub struct Text {
    text: String,
}

/// Why bytes are refused as a text.
#[derive(Clone, Copy, Debug, PartialEq, Eq)]
pub enum Unfit {
    /// They are no text.
    NotText,
    NoMemory,
}

impl Model for Text {
    ghost use Rattle.std.specs.Prelude.{List, ℕ};
    ghost use Rattle.std.specs.String.{string_bytes};
    ghost use Rattle.gdi_kinds.specs.Texts.{IsText};

    ghost Value = { List ℕ };

    ghost view = { λ text. string_bytes text.text };

    ghost invariant = { λ text. IsText (string_bytes text.text) };
}

impl From<AllocError> for Unfit {
    ghost from_gives = { λ _ unfit. unfit ≡ NoMemory };

    fn from(_refused: AllocError) -> Unfit {
        Unfit::NoMemory
    }
}

impl From<NoMemory> for Unfit {
    ghost from_gives = { λ _ unfit. unfit ≡ NoMemory };

    fn from(_refused: NoMemory) -> Unfit {
        Unfit::NoMemory
    }
}

const MAX_BYTES: usize = 255;

impl Text {
    /// The text with these bytes. It is refused as `NotText` exactly where they are no text, which is told before
    /// memory is asked for.
    pub fn of(alloc: Global, bytes: &[u8]) -> Result<Text, Unfit>
        ensures ok { IfOk result (λ text. (text ≡ bytes.now) × IsText bytes.now) }
        ensures not_text { (result ≡ Err Unfit.NotText) ↔ ¬ (IsText bytes.now) }
    {
        let Ok(text) = str::from_utf8(bytes) else {
            return Err(Unfit::NotText);
        };
        if bytes.len() > MAX_BYTES || !all_printable(bytes) {
            return Err(Unfit::NotText);
        }
        Ok(Text {
            text: String::from_str(alloc, text)?,
        })
    }

    /// The bytes, at most 255.
    pub fn bytes(&self) -> &[u8]
        ensures value { result.now ≡ self.now }
        ensures text { IsText self.now }
    {
        self.text.as_bytes()
    }
}

impl Duplicate for Text {
    fn copy(&self, alloc: Global) -> Result<Text, NoMemory> {
        Ok(Text {
            text: String::from_str(alloc, self.text.as_str())?,
        })
    }
}

fn all_printable(bytes: &[u8]) -> bool
    ensures { result ≡ list_all is_printable bytes.now }
{
    bytes.iter().all(|b| is_printable(*b))
}

fn is_printable(b: u8) -> bool
    ensures { result ≡ is_printable b }
{
    b >= 32 && b != 127
}
