ghost use Rattle.std.specs.Prelude.{◌≡◌, ◌⊎◌, [], IfOk, OnOk, OnErr, is_some, if◌then◌else◌};
ghost use Rattle.std.specs.Option.{unwrap_or};
ghost use Rattle.object_words.specs.Contents.{content_of, with_words, words_at};
ghost use Rattle.object_store.specs.declared.phase.Phase.TheVariants.{Idle};

use crate::objects::Objects;
use crate::phase::Phase;
use gdi_kinds::{Duplicate, NoMemory};
use object_words::Words;
use rma_layout::DPtr;
use std::alloc::Global;

/// A transaction of a plain store: what it has read and what it has written.
#[derive(Drop)]
pub struct Transaction {
    pub phase: Phase,
    pub reads: Objects,
    pub writes: Objects,
}

impl Transaction {
    /// No transaction.
    pub(crate) fn none(alloc: Global) -> Transaction
        ensures { result ≡ (record { phase = Idle; reads = []; writes = [] }) }
    {
        Transaction {
            phase: Phase::Idle,
            reads: Objects::new(alloc),
            writes: Objects::new(alloc),
        }
    }

    /// Ends it. It takes no memory.
    pub(crate) fn end(&mut self)
        ensures { self.new ≡ (record { phase = Idle; reads = []; writes = [] }) }
    {
        self.phase = Phase::Idle;
        self.reads.clear();
        self.writes.clear();
    }

    /// The words that it last wrote to the object, else the committed ones, which it notes as read.
    pub(crate) fn read(
        &mut self,
        alloc: Global,
        committed: &Objects,
        at: DPtr,
    ) -> Result<Words, NoMemory>
        ensures words { IfOk result (λ words. words ≡ unwrap_or (words_at self.old.writes at) (content_of committed.now at)) }
        ensures reads { IfOk result (λ words. self.new.reads ≡ (if is_some (words_at self.old.writes at) then self.old.reads else with_words self.old.reads at words)) }
        ensures writes { (self.new.writes ≡ self.old.writes) × (self.new.phase ≡ self.old.phase) }
        ensures err { OnErr result (self.new ≡ self.old) }
    {
        if let Some(words) = self.writes.get(at) {
            return words.copy(alloc);
        }
        let words = committed.copy_of(alloc, at)?;
        self.reads.put(at, words.copy(alloc)?)?;
        Ok(words)
    }

    /// Notes an object as made: it was read as empty, and is written as empty until more is written to it.
    pub(crate) fn make(&mut self, alloc: Global, at: DPtr) -> Result<(), NoMemory>
        ensures ok { OnOk result (self.new ≡ (record { phase = self.old.phase; reads = with_words self.old.reads at []; writes = with_words self.old.writes at [] })) }
        ensures phase { self.new.phase ≡ self.old.phase }
        ensures reads { (self.new.reads ≡ self.old.reads) ⊎ (self.new.reads ≡ with_words self.old.reads at []) }
        ensures writes { (self.new.writes ≡ self.old.writes) ⊎ (self.new.writes ≡ with_words self.old.writes at []) }
    {
        self.reads.put(at, Words::new(alloc))?;
        self.writes.put(at, Words::new(alloc))
    }
}
