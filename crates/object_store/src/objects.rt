ghost use Rattle.std.specs.Prelude.{◌≡◌, [], ◌∷◌, length, OnOk, OnErr, IfOk, IfSome, IfNone, is_some, true, false};
ghost use Rattle.std.specs.Option.{option_copied};
ghost use Rattle.object_words.specs.Chains.{place_of};
ghost use Rattle.object_words.specs.Contents.{IsSameContents, content_of, is_empty, overlay, with_words, words_at};
ghost use Rattle.rma_layout.specs.Placement.{Place};

use gdi_kinds::{Duplicate, NoMemory};
use object_words::Words;
use rma_layout::DPtr;
use std::alloc::Global;
use std::collections::BTreeMap;
use std::marker::Model;

/// Objects with their words, by rising object. Contracts see the contents.
#[derive(Drop)]
pub struct Objects {
    words: BTreeMap<u64, Words, Global>,
}

impl Model for Objects {
    ghost use Rattle.object_words.specs.Contents.{Contents};
    ghost use Rattle.object_store.specs.Map.{contents_in};

    ghost Value = { Contents };

    ghost view = { λ objects. contents_in objects.words.entries };
}

impl Objects {
    /// No objects. It takes no memory.
    pub fn new(alloc: Global) -> Objects
        ensures { result ≡ [] }
    {
        Objects {
            words: BTreeMap::new(alloc),
        }
    }

    /// The words that stand at an object, if any do.
    pub fn get(&self, at: DPtr) -> Option<&Words>
        ensures { option_copied result ≡ words_at self.now at }
    {
        self.words.get(&key(at))
    }

    /// A copy of an object's words. One that is absent is empty.
    pub fn copy_of(&self, alloc: Global, at: DPtr) -> Result<Words, NoMemory>
        ensures { IfOk result (λ words. words ≡ content_of self.now at) }
    {
        match self.get(at) {
            Some(words) => words.copy(alloc),
            None => Ok(Words::new(alloc)),
        }
    }

    /// Whether an object has no words.
    pub fn is_empty_at(&self, at: DPtr) -> bool
        ensures { result ≡ is_empty (content_of self.now at) }
    {
        match self.get(at) {
            Some(words) => words.len() == 0,
            None => true,
        }
    }

    /// Whether words stand at an object, be they none.
    pub fn has(&self, at: DPtr) -> bool
        ensures { result ≡ is_some (words_at self.now at) }
    {
        self.get(at).is_some()
    }

    /// Gives an object these words. After a refusal nothing is changed, and none comes where words stand there.
    pub fn put(&mut self, at: DPtr, words: Words) -> Result<(), NoMemory>
        ensures ok { OnOk result (self.new ≡ with_words self.old at words) }
        ensures err { OnErr result (self.new ≡ self.old) }
        ensures absent { OnErr result (is_some (words_at self.old at) ≡ false) }
    {
        self.words.insert(key(at), words)?;
        Ok(())
    }

    /// Sees to it that words stand at an object, so that a later `put` needs no memory. No content is changed.
    pub fn hold(&mut self, alloc: Global, at: DPtr) -> Result<(), NoMemory>
        ensures same { IsSameContents self.new self.old }
        ensures held { OnOk result (is_some (words_at self.new at) ≡ true) }
        ensures others { (other : Place) → is_some (words_at self.old other) ≡ true → is_some (words_at self.new other) ≡ true }
    {
        if self.has(at) {
            return Ok(());
        }
        self.put(at, Words::new(alloc))
    }

    /// Puts others over these, and takes them out there. It takes no memory, since words stand at each of them.
    pub fn absorb(&mut self, others: &mut Objects)
        requires { (object : Place) → is_some (words_at others.old object) ≡ true → is_some (words_at self.old object) ≡ true }
        ensures these { self.new ≡ overlay self.old others.old }
        ensures those { others.new ≡ [] }
    {
        while let Some((at, words)) = others.pop_first() {
            let Ok(()) = self.put(at, words) else {
                unreachable!()
            };
        }
    }

    /// Takes the first object out.
    pub fn pop_first(&mut self) -> Option<(DPtr, Words)>
        ensures some { IfSome result (λ one. self.old ≡ one ∷ self.new) }
        ensures none { IfNone result ((self.old ≡ []) × (self.new ≡ [])) }
    {
        let (raw, words) = self.words.pop_first()?;
        Some((pointer(raw), words))
    }

    /// Takes all objects out.
    pub fn clear(&mut self)
        ensures { self.new ≡ [] }
    {
        self.words.clear();
    }
}

/// The word of this pointer.
fn key(at: DPtr) -> u64
    ensures { place_of result ≡ at }
{
    at.raw()
}

/// The pointer of this word.
fn pointer(raw: u64) -> DPtr
    ensures { result ≡ place_of raw }
{
    DPtr::new((raw >> 48) as u16, raw & ((1 << 48) - 1))
}
