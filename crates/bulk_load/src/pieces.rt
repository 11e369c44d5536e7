ghost use Rattle.std.specs.Prelude.{◌≡◌, ◌<◌, ◌∷◌, length, IfSome};
ghost use Rattle.std.specs.Option.{option_copied};
ghost use Rattle.bulk_load.specs.Fields.{pieces_of};
ghost use Rattle.bulk_load.specs.Cuts.{pieces_behind};

use text_words::position_of;

/// The first piece of a field, and what follows the `;` behind it, where one does.
pub(crate) fn first_piece(text: &[u8]) -> (&[u8], Option<&[u8]>)
    ensures pieces { pieces_of text.now ≡ result.0.now ∷ pieces_behind (option_copied result.1) }
    ensures shorter { IfSome result.1 (λ rest. length rest.now < length text.now) }
{
    match position_of(b';', text) {
        Some(end) => (&text[..end], Some(&text[end + 1..])),
        None => (text, None),
    }
}
