ghost use Rattle.std.specs.Prelude.{◌≡◌};
ghost use Rattle.holder_codec.specs.Values.{PropFits, prop_words, type_word, is_prop_before};
ghost use Rattle.holder_codec.specs.Reading.{prop_at};

use crate::item::{Item, Ordered};
use crate::unread::Unread;
use crate::values::{
    byte_length, code_of, is_same_kind, kind_of, kind_of_code, read_value, write_value,
};
use crate::words::{narrow, read_number};
use gdi_kinds::{Kind, ListOf, NoMemory, Value};
use object_words::Words;
use std::alloc::Global;

/// A value of a property.
#[derive(Debug, Drop)]
pub struct HeldProp {
    /// The number of the type.
    pub number: u32,
    /// Whether the type is marked. Only then may the property have more than one value.
    pub many: bool,
    pub value: Value,
}

// The word of a marked type has this too.
const MARK: u64 = 1 << 63;

/// The properties of a vertex or an edge, one after the other, each with its values in order.
pub type HeldProps = ListOf<HeldProp>;

impl Item for HeldProp {
    ghost spelling = { prop_words };

    ghost Fits = { PropFits };

    ghost reading = { prop_at };

    fn write_to(&self, out: &mut Words) -> Result<(), NoMemory> {
        out.push(type_word(self.number, kind_of(&self.value), self.many))?;
        out.push(byte_length(&self.value))?;
        write_value(&self.value, out)
    }

    #[tactic(auto, unfolding(crate::specs::Reading::prop_at))]
    fn read_from(alloc: Global, words: &mut &[u64]) -> Result<HeldProp, Unread> {
        let word = read_number(words)?;
        let size = read_number(words)?;
        let many = word >= MARK;
        let number = narrow(word % MARK / 4)?;
        let kind = kind_of_code(word % 4)?;
        let value = read_value(alloc, kind, size, words)?;
        Ok(HeldProp {
            number,
            many,
            value,
        })
    }
}

impl Ordered for HeldProp {
    ghost is_before = { is_prop_before };

    fn is_before(&self, other: &HeldProp) -> bool {
        self.number < other.number
            || self.number == other.number
                && self.many
                && other.many
                && is_same_kind(kind_of(&self.value), kind_of(&other.value))
    }
}

/// The word in front of a value: the number of its type, the kind, and whether the type is marked.
fn type_word(number: u32, kind: Kind, many: bool) -> u64
    ensures { result ≡ type_word number kind many }
{
    let word = u64::from(number) * 4 + code_of(kind);
    if many { MARK + word } else { word }
}
