ghost use Rattle.holder_codec.specs.Meta.{TypeFits, line_words};
ghost use Rattle.holder_codec.specs.Reading.{type_at};

use crate::item::Item;
use crate::names::Named;
use crate::unread::Unread;
use crate::values::{code_of, kind_of_code};
use crate::words::{bool_of, read_number};
use gdi_kinds::{Kind, ListOf, Name, NoMemory};
use object_words::Words;
use std::alloc::Global;

/// A property type: its name, the kind of its values, and whether it is marked, so that a property may have more than one.
#[derive(Clone, Copy, Debug)]
pub struct TypeLine {
    pub name: Name,
    pub kind: Kind,
    pub many: bool,
}

/// Property types. The number of a type is its place in the list, from 0.
pub type TypeList = ListOf<TypeLine>;

impl Item for TypeLine {
    ghost spelling = { line_words };

    ghost Fits = { TypeFits };

    ghost reading = { type_at };

    fn write_to(&self, out: &mut Words) -> Result<(), NoMemory> {
        out.push(code_of(self.kind) + 4 * u64::from(self.many))?;
        self.name.write_to(out)
    }

    #[tactic(auto, unfolding(crate::specs::Reading::type_at))]
    fn read_from(alloc: Global, words: &mut &[u64]) -> Result<TypeLine, Unread> {
        let word = read_number(words)?;
        let many = bool_of(word / 4)?;
        let kind = kind_of_code(word % 4)?;
        let name = Name::read_from(alloc, words)?;
        Ok(TypeLine { name, kind, many })
    }
}

impl Named for TypeLine {
    ghost name_of = { λ line. line.name };

    fn name(&self) -> &Name {
        &self.name
    }
}
