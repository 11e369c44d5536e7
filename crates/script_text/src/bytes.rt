ghost use Rattle.std.specs.Prelude.{◌≡◌, ◌↔◌, IsTrue};
ghost use Rattle.script_text.specs.Scripts.{is_skipped};
ghost use Rattle.script_text.specs.Faults.{IsClean};
ghost use Rattle.std.specs.List.{list_all};
ghost use Rattle.gdi_kinds.specs.Texts.{is_printable};

use std::str;

/// Whether a line is empty or begins with `#`.
pub(crate) fn is_skipped(line: &[u8]) -> bool
    ensures { result ≡ is_skipped line.now }
{
    match line {
        [] => true,
        [first, ..] => *first == b'#',
    }
}

/// Whether a line is UTF-8 without control bytes.
pub(crate) fn is_clean(line: &[u8]) -> bool
    ensures { IsTrue result ↔ IsClean line.now }
{
    all_printable(line) && str::from_utf8(line).is_ok()
}

fn all_printable(line: &[u8]) -> bool
    ensures { result ≡ list_all is_printable line.now }
{
    line.iter().all(|b| is_printable(*b))
}

fn is_printable(b: u8) -> bool
    ensures { result ≡ is_printable b }
{
    b >= 32 && b != 127
}
