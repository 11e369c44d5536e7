ghost use Rattle.std.specs.Prelude.{◌≡◌};
ghost use Rattle.holder_codec.specs.Reading.{Gives, form_of};
ghost use Rattle.holder_codec.specs.Edges.{FormFits, form_word};

use crate::unread::Unread;
use crate::words::{narrow, pointer_of};
use rma_layout::DPtr;

const HEAVY: u64 = 1 << 63;

/// What a vertex knows of an edge's labels and properties.
#[derive(Clone, Copy, Debug, PartialEq, Eq)]
pub enum EdgeForm {
    /// There are none.
    Plain,
    /// There is the label of this number, and no property.
    Labelled(u32),
    /// They stand in this object. Its rank is below 32,768.
    Heavy(DPtr),
}

/// The word of a form.
pub(crate) fn word_of_form(form: EdgeForm) -> u64
    requires { FormFits form }
    ensures { result ≡ form_word form }
{
    match form {
        EdgeForm::Plain => 0,
        EdgeForm::Labelled(label) => u64::from(label) + 1,
        EdgeForm::Heavy(at) => HEAVY + at.raw(),
    }
}

/// The form that has a word.
#[tactic(auto, unfolding(crate::specs::Reading::form_of))]
pub(crate) fn form_of(word: u64) -> Result<EdgeForm, Unread>
    ensures { Gives (λ form. form) result (form_of word) }
{
    if word == 0 {
        return Ok(EdgeForm::Plain);
    }
    if word < HEAVY {
        return Ok(EdgeForm::Labelled(narrow(word - 1)?));
    }
    Ok(EdgeForm::Heavy(pointer_of(word - HEAVY)))
}
