ghost use Rattle.std.specs.Prelude.{◌≡◌, ◌≢◌, ℕ, ◌^◌, ◌<◌, MatchOption};
ghost use Rattle.std.specs.Fmt.{decimal};
ghost use Rattle.text_words.specs.Numbers.{begins_number};

use std::str;

/// The number that digits spell: decimal, without a sign or a leading zero, in 64 bits.
pub fn number_of(digits: &[u8]) -> Option<u64>
    ensures { MatchOption result ((n : ℕ) → n < 2 ^ 64 → digits.now ≢ decimal n) (λ n. digits.now ≡ decimal n) }
{
    if !begins_number(digits) {
        return None;
    }
    str::from_utf8(digits).ok()?.parse().ok()
}

// Whether digits begin as a number is spelled: with a 0 that stands alone, or with another digit.
fn begins_number(digits: &[u8]) -> bool
    ensures { result ≡ begins_number digits.now }
{
    matches!(digits, [b'0'] | [b'1'..=b'9', ..])
}
