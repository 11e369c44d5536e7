ghost use Rattle.std.specs.Prelude.{◌≡◌, ◌≢◌, IfOk, MatchOption};
ghost use Rattle.holder_codec.specs.declared.index_holder.IndexHolder.{IndexHolder};
ghost use Rattle.holder_codec.specs.Index.{IsIndexHolder, index_words};
ghost use Rattle.holder_codec.specs.Reading.{IsWords, Gives, index_of_words};

use crate::index_entry::IndexList;
use crate::items::{read_rising, write_all};
use crate::unread::Unread;
use gdi_kinds::NoMemory;
use object_words::Words;
use std::alloc::Global;

/// What an object of the index holds: labels of vertices, by rising label and rising identifier.
#[derive(Debug, Drop)]
pub struct IndexHolder {
    pub entries: IndexList,
}

impl IndexHolder {
    /// The one spelling of the object: two words an entry.
    pub fn write(&self, alloc: Global) -> Result<Words, NoMemory>
        requires { IsIndexHolder self.now }
        ensures { IfOk result (λ words. words ≡ index_words self.now) }
    {
        let mut words = Words::new(alloc);
        write_all(self.entries.as_slice(), &mut words)?;
        Ok(words)
    }

    /// The object that the words spell. There is none exactly where none has these words.
    pub fn read(alloc: Global, words: &Words) -> Result<Option<IndexHolder>, NoMemory>
        ensures { IfOk result (λ found. MatchOption found
            ((index : IndexHolder) → IsIndexHolder index → words.now ≢ index_words index)
            (λ index. IsIndexHolder index × (words.now ≡ index_words index))) }
    {
        match all(alloc, words.as_slice()) {
            Ok(index) => Ok(Some(index)),
            Err(Unread::NotSpelled) => Ok(None),
            Err(Unread::NoMemory) => Err(NoMemory),
        }
    }
}

#[tactic(auto, unfolding(crate::specs::Reading::index_of_words))]
fn all(alloc: Global, words: &[u64]) -> Result<IndexHolder, Unread>
    ensures gives { Gives (λ index. index) result (index_of_words words.now) }
    ensures words { IsWords words.now }
{
    let mut rest = words;
    let entries = read_rising(alloc, words.len() as u64 / 2, &mut rest)?;
    if !rest.is_empty() {
        return Err(Unread::NotSpelled);
    }
    Ok(IndexHolder { entries })
}
