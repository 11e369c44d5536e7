ghost use Rattle.std.specs.Prelude.{◌≡◌, ◌≢◌, ◌==◌, ◌&&◌, IfOk, MatchOption, length, map};
ghost use Rattle.holder_codec.specs.declared.meta_holder.MetaHolder.{MetaHolder};
ghost use Rattle.holder_codec.specs.Meta.{IsMetaHolder, meta_words};
ghost use Rattle.holder_codec.specs.Reading.{IsWords, Gives, are_distinct, meta_of_words};

use crate::items::{read_many, write_all};
use crate::names::are_distinct;
use crate::type_line::TypeList;
use crate::unread::Unread;
use crate::words::read_number;
use gdi_kinds::{NameList, NoMemory};
use object_words::Words;
use std::alloc::Global;

/// What the metadata object holds. The number of a label or of a property type is its place in its list, from 0. No name
/// stands twice in a list.
#[derive(Debug, Drop)]
pub struct MetaHolder {
    pub labels: NameList,
    pub types: TypeList,
}

impl MetaHolder {
    /// The one spelling of the names: no words while there are none.
    pub fn write(&self, alloc: Global) -> Result<Words, NoMemory>
        requires { IsMetaHolder self.now }
        ensures { IfOk result (λ words. words ≡ meta_words self.now) }
    {
        let mut words = Words::new(alloc);
        if self.is_empty() {
            return Ok(words);
        }
        words.push(self.labels.len() as u64)?;
        words.push(self.types.len() as u64)?;
        write_all(self.labels.as_slice(), &mut words)?;
        write_all(self.types.as_slice(), &mut words)?;
        Ok(words)
    }

    /// Whether there are no names.
    fn is_empty(&self) -> bool
        ensures { result ≡ (length self.now.labels == 0 && length self.now.types == 0) }
    {
        self.labels.len() == 0 && self.types.len() == 0
    }

    /// The names that the words spell. There are none exactly where no names have these words.
    pub fn read(alloc: Global, words: &Words) -> Result<Option<MetaHolder>, NoMemory>
        ensures { IfOk result (λ found. MatchOption found
            ((meta : MetaHolder) → IsMetaHolder meta → words.now ≢ meta_words meta)
            (λ meta. IsMetaHolder meta × (words.now ≡ meta_words meta))) }
    {
        match all(alloc, words.as_slice()) {
            Ok(meta) => Ok(Some(meta)),
            Err(Unread::NotSpelled) => Ok(None),
            Err(Unread::NoMemory) => Err(NoMemory),
        }
    }
}

#[tactic(auto, unfolding(crate::specs::Reading::meta_of_words))]
fn all(alloc: Global, words: &[u64]) -> Result<MetaHolder, Unread>
    ensures gives { Gives (λ meta. meta) result (meta_of_words words.now) }
    ensures words { IsWords words.now }
{
    if words.is_empty() {
        return Ok(MetaHolder {
            labels: NameList::new(alloc),
            types: TypeList::new(alloc),
        });
    }
    let mut rest = words;
    let label_count = read_number(&mut rest)?;
    let type_count = read_number(&mut rest)?;
    if label_count == 0 && type_count == 0 {
        return Err(Unread::NotSpelled);
    }
    let labels = read_many(alloc, label_count, &mut rest)?;
    let types = read_many(alloc, type_count, &mut rest)?;
    if !rest.is_empty() {
        return Err(Unread::NotSpelled);
    }
    let meta = MetaHolder { labels, types };
    if !stands_once(alloc, &meta)? {
        return Err(Unread::NotSpelled);
    }
    Ok(meta)
}

/// Whether no two labels have one name, and no two types.
fn stands_once(alloc: Global, meta: &MetaHolder) -> Result<bool, NoMemory>
    ensures { IfOk result (λ once. once ≡ (are_distinct meta.now.labels && are_distinct (map (λ line. line.name) meta.now.types))) }
{
    Ok(are_distinct(alloc, meta.labels.as_slice())? && are_distinct(alloc, meta.types.as_slice())?)
}
