ghost use Rattle.std.specs.Prelude.{◌≡◌, ◌≢◌, [], IfOk, OnOk, true, is_some, if◌then◌else◌};
ghost use Rattle.std.specs.Option.{unwrap_or};
ghost use Rattle.rma_layout.specs.Placement.{Place};
ghost use Rattle.object_words.specs.Contents.{Agrees, IsByRisingObject, IsSameContents, content_of, with_words, words_at};
ghost use Rattle.object_words.specs.Entries.{store_after};
ghost use Rattle.object_store.specs.Plain.{IsNew, StandsAlone};
ghost use Rattle.object_store.specs.declared.phase.Phase.TheVariants.{Idle, Writing};

mod calls;

use crate::ledger::Ledger;
use crate::objects::Objects;
use crate::store::Store;
use crate::transaction::Transaction;
use gdi_kinds::NoMemory;
use object_words::{Law, Words};
use rma_layout::{DPtr, Geometry};
use std::alloc::Global;

/// A store that is an ordered map from objects to words. It stands for all ranks, and counts objects and not
/// blocks.
#[derive(Drop)]
pub struct PlainStore<L: Law> {
    alloc: Global,
    geometry: Geometry,
    committed: Objects,
    txn: Transaction,
    ledger: Ledger<L>,
    ghost shape: { ledger.seat.me.0.shape ≡ geometry },
    ghost same: { IsSameContents committed (store_after ledger.seat.me.0.seen) },
    ghost agrees: { Agrees txn.reads (store_after ledger.seat.me.0.seen) },
    ghost reads_in_order: { IsByRisingObject txn.reads },
    ghost writes_in_order: { IsByRisingObject txn.writes },
    ghost idle: { txn.phase ≡ Idle → (txn.reads ≡ []) × (txn.writes ≡ []) },
    ghost held: { (object : Place) → is_some (words_at txn.writes object) ≡ true → is_some (words_at committed object) ≡ true },
}

impl<L: Law> PlainStore<L> {
    /// A store in which every object is empty.
    pub fn new(alloc: Global, geometry: Geometry) -> Result<PlainStore<L>, NoMemory>
        ensures { IfOk result (λ store. IsNew L.fits geometry (⟦<PlainStore<L> as Store<L>>⟧.state store)) }
    {
        let ledger = Ledger::new(alloc, geometry)?;
        Ok(PlainStore {
            alloc,
            geometry,
            committed: Objects::new(alloc),
            txn: Transaction::none(alloc),
            ledger,
        })
    }

    /// What every plain store tells: it stands for all ranks and keeps no spares, a transaction may make as many
    /// objects of a rank as are empty, blocks aren't counted, and nothing passes.
    pub fn stands_alone(&self)
        ensures { StandsAlone (⟦<PlainStore<L> as Store<L>>⟧.state self.now) }
    {}

    /// Reads an object.
    fn try_read(&mut self, at: DPtr) -> Result<Words, NoMemory>
        requires { self.old.txn.phase ≢ Idle }
        ensures words { IfOk result (λ words. words ≡ unwrap_or (words_at self.old.txn.writes at) (content_of self.old.committed at)) }
        ensures reads { IfOk result (λ words. self.new.txn.reads ≡ (if is_some (words_at self.old.txn.writes at) then self.old.txn.reads else with_words self.old.txn.reads at words)) }
        ensures writes { self.new.txn.writes ≡ self.old.txn.writes }
        ensures history { (self.new.geometry ≡ self.old.geometry) × (self.new.ledger ≡ self.old.ledger) }
        ensures phase { self.new.txn.phase ≡ self.old.txn.phase }
    {
        self.txn.read(self.alloc, &self.committed, at)
    }

    /// Writes to an object, where a place for its words is kept among the committed ones, so that a commit takes no
    /// memory.
    fn try_write(&mut self, at: DPtr, words: Words) -> Result<(), NoMemory>
        requires { self.old.txn.phase ≡ Writing }
        ensures ok { OnOk result (self.new.txn ≡ (record { phase = Writing; reads = self.old.txn.reads; writes = with_words self.old.txn.writes at words })) }
        ensures history { (self.new.geometry ≡ self.old.geometry) × (self.new.ledger ≡ self.old.ledger) }
        ensures phase { self.new.txn.phase ≡ Writing }
    {
        self.committed.hold(self.alloc, at)?;
        self.txn.writes.put(at, words)
    }

    /// Makes an object that is empty.
    fn try_make(&mut self, at: DPtr) -> Result<(), NoMemory>
        requires begun { self.old.txn.phase ≡ Writing }
        requires empty { content_of self.old.committed at ≡ [] }
        ensures ok { OnOk result (self.new.txn ≡ (record { phase = Writing; reads = with_words self.old.txn.reads at []; writes = with_words self.old.txn.writes at [] })) }
        ensures history { (self.new.geometry ≡ self.old.geometry) × (self.new.ledger ≡ self.old.ledger) }
        ensures phase { self.new.txn.phase ≡ Writing }
    {
        self.committed.hold(self.alloc, at)?;
        self.txn.make(self.alloc, at)
    }
}
