ghost use Rattle.std.specs.Prelude.{◌≡◌, Option};
ghost use Rattle.object_words.specs.Chains.{place_of};
ghost use Rattle.holder_codec.specs.Reading.{Gives, number_at, place_at, bool_at, bool_of, narrow};

use crate::unread::Unread;
use rma_layout::DPtr;

/// The first word. The words after it are left.
pub(crate) fn read_number(words: &mut &[u64]) -> Result<u64, Unread>
    ensures { Gives (λ number. (number, words.new.now)) result (number_at words.old.now) }
{
    match *words {
        [] => Err(Unread::NotSpelled),
        [number, rest @ ..] => {
            *words = rest;
            Ok(*number)
        }
    }
}

/// The pointer that the first word names. The words after it are left.
#[tactic(auto, unfolding(crate::specs::Reading::place_at))]
pub(crate) fn read_pointer(words: &mut &[u64]) -> Result<DPtr, Unread>
    ensures { Gives (λ at. (at, words.new.now)) result (place_at words.old.now) }
{
    Ok(pointer_of(read_number(words)?))
}

/// The pointer that a word names.
pub(crate) fn pointer_of(word: u64) -> DPtr
    ensures { result ≡ place_of word }
{
    DPtr::new((word >> 48) as u16, word % (1 << 48))
}

/// Whether the first word is 1. It is 0 or 1. The words after it are left.
#[tactic(auto, unfolding(crate::specs::Reading::bool_at))]
pub(crate) fn read_bool(words: &mut &[u64]) -> Result<bool, Unread>
    ensures { Gives (λ bool. (bool, words.new.now)) result (bool_at words.old.now) }
{
    bool_of(read_number(words)?)
}

/// Whether a word is 1. It is 0 or 1.
pub(crate) fn bool_of(word: u64) -> Result<bool, Unread>
    ensures { Gives (λ bool. bool) result (bool_of word) }
{
    match word {
        0 => Ok(false),
        1 => Ok(true),
        _ => Err(Unread::NotSpelled),
    }
}

/// The word as a number of 32 bits.
pub(crate) fn narrow(word: u64) -> Result<u32, Unread>
    ensures { Gives (λ number. number) result (narrow word) }
{
    if word > u64::from(u32::MAX) {
        return Err(Unread::NotSpelled);
    }
    Ok(word as u32)
}
