ghost use Rattle.std.specs.Prelude.{◌≡◌, map};
ghost use Rattle.command_words.specs.Items.{has_short, is_short};

/// Whether a word before `--` begins with one `-`.
pub(crate) fn has_short(words: &[&str]) -> bool
    ensures { result ≡ has_short (map (λ word. word.now) words.now) }
{
    for word in words {
        if *word == "--" {
            return false;
        }
        if is_short(word.as_bytes()) {
            return true;
        }
    }
    false
}

fn is_short(word: &[u8]) -> bool
    ensures { result ≡ is_short word.now }
{
    match word {
        [b'-'] => true,
        [b'-', next, ..] => *next != b'-',
        _ => false,
    }
}
