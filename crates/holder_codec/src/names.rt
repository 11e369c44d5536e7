ghost use Rattle.std.specs.Prelude.{◌≡◌, ◌++◌, List, ℕ, OnOk, IfOk, map};
ghost use Rattle.gdi_kinds.specs.Names.{IsName};
ghost use Rattle.holder_codec.specs.Holders.{name_words};
ghost use Rattle.holder_codec.specs.Reading.{Gives, are_distinct, name_at};

use crate::item::Item;
use crate::texts::{read_bytes, write_bytes};
use crate::unread::Unread;
use crate::words::read_number;
use gdi_kinds::{Name, NoMemory};
use object_words::Words;
use std::alloc::{AllocFailed, Global};
use std::collections::BTreeSet;

/// What has a name.
pub(crate) trait Named {
    ghost name_of: { Self → List ℕ };

    fn name(&self) -> &Name
        ensures { result.now ≡ name_of self.now };
}

impl Named for Name {
    ghost name_of = { λ name. name };

    fn name(&self) -> &Name {
        self
    }
}

/// The name of a label.
impl Item for Name {
    ghost spelling = { name_words };

    ghost Fits = { IsName };

    ghost reading = { name_at };

    fn write_to(&self, out: &mut Words) -> Result<(), NoMemory> {
        out.push(self.bytes().len() as u64)?;
        write_bytes(self.bytes(), out)
    }

    #[tactic(auto, unfolding(crate::specs::Reading::name_at))]
    fn read_from(alloc: Global, words: &mut &[u64]) -> Result<Name, Unread> {
        let size = read_number(words)?;
        let bytes = read_bytes(alloc, size, words)?;
        Name::of(bytes.as_slice()).ok_or(Unread::NotSpelled)
    }
}

/// Whether no two items have the same name.
pub(crate) fn are_distinct<N: Named>(alloc: Global, items: &[N]) -> Result<bool, NoMemory>
    ensures { IfOk result (λ distinct. distinct ≡ are_distinct (map N.name_of items.now)) }
{
    let mut seen = BTreeSet::new(alloc);
    for item in items {
        if !seen.insert(item.name().bytes())? {
            return Ok(false);
        }
    }
    Ok(true)
}
