ghost use Rattle.std.specs.Prelude.{◌≡◌, ◌≢◌, IfOk, MatchOption};
ghost use Rattle.holder_codec.specs.declared.bucket_holder.BucketHolder.{BucketHolder};
ghost use Rattle.holder_codec.specs.Bucket.{IsBucketHolder, bucket_words};
ghost use Rattle.holder_codec.specs.Reading.{IsWords, Gives, bucket_of_words};

use crate::bucket_entry::BucketList;
use crate::items::{read_rising, write_all};
use crate::unread::Unread;
use gdi_kinds::NoMemory;
use object_words::Words;
use std::alloc::Global;

/// What a bucket holds: vertices by rising identifier, each with its object.
#[derive(Debug, Drop)]
pub struct BucketHolder {
    pub entries: BucketList,
}

impl BucketHolder {
    /// The one spelling of the bucket: two words an entry.
    pub fn write(&self, alloc: Global) -> Result<Words, NoMemory>
        requires { IsBucketHolder self.now }
        ensures { IfOk result (λ words. words ≡ bucket_words self.now) }
    {
        let mut words = Words::new(alloc);
        write_all(self.entries.as_slice(), &mut words)?;
        Ok(words)
    }

    /// The bucket that the words spell. There is none exactly where no bucket has these words.
    pub fn read(alloc: Global, words: &Words) -> Result<Option<BucketHolder>, NoMemory>
        ensures { IfOk result (λ found. MatchOption found
            ((bucket : BucketHolder) → IsBucketHolder bucket → words.now ≢ bucket_words bucket)
            (λ bucket. IsBucketHolder bucket × (words.now ≡ bucket_words bucket))) }
    {
        match all(alloc, words.as_slice()) {
            Ok(bucket) => Ok(Some(bucket)),
            Err(Unread::NotSpelled) => Ok(None),
            Err(Unread::NoMemory) => Err(NoMemory),
        }
    }
}

#[tactic(auto, unfolding(crate::specs::Reading::bucket_of_words))]
fn all(alloc: Global, words: &[u64]) -> Result<BucketHolder, Unread>
    ensures gives { Gives (λ bucket. bucket) result (bucket_of_words words.now) }
    ensures words { IsWords words.now }
{
    let mut rest = words;
    let entries = read_rising(alloc, words.len() as u64 / 2, &mut rest)?;
    if !rest.is_empty() {
        return Err(Unread::NotSpelled);
    }
    Ok(BucketHolder { entries })
}
