ghost use Rattle.std.specs.Prelude.{◌≡◌, ◌<◌, ℕ, false, IfOk, IfErr};
ghost use Rattle.object_store.specs.declared.phase.Phase.TheVariants.{Writing};
ghost use Rattle.object_store.specs.declared.plain_refused.PlainRefused.TheVariants.{Empty};
ghost use Rattle.object_store.specs.State.{committed};
ghost use Rattle.object_store.specs.Sound.{Continues, StaysExplained};
ghost use Rattle.object_store.specs.Calls.{MakesObject};
ghost use Rattle.object_store.specs.Refusals.{RefusesFresh};
ghost use Rattle.object_store.specs.Plain.{IsFirstVacant, IsNoneVacant};

use crate::PlainRefused;
use crate::phase::Phase;
use crate::plain_store::PlainStore;
use crate::store::Store;
use crate::vacant::first_vacant;
use gdi_kinds::NoMemory;
use object_words::{Carries, Law, Words};
use rma_layout::{DPtr, Geometry};
use std::marker::Brand;

impl<L: Law> Store<L> for PlainStore<L> {
    type Refused = PlainRefused;

    ghost use Rattle.std.specs.Prelude.{◌≡◌};
    ghost use Rattle.std.proofs.Common.{◌∙◌, ap, sym};
    ghost use Rattle.object_store.specs.Plain.{plain_state, said_by, said_for_memory};

    ghost state = { λ store. plain_state store.geometry store.ledger.seat.table_id store.txn store.ledger.seat.me.0 };

    ghost explains = { λ _ _ _. Unit {0} };

    ghost says = { said_by };

    ghost memory = { λ _ _ is. ap (λ why. (said_by why).for_memory) is };

    ghost memory_alone = { λ _ why is. said_for_memory why is };

    ghost memory_is_one = { λ one other first second. said_for_memory one first ∙ sym (said_for_memory other second) };

    ghost memory_names_nothing = { λ why is. ap (λ one. (said_by one).names) (said_for_memory why is) };

    ghost memory_lasts = { λ why is. ap (λ one. (said_by one).passing) (said_for_memory why is) };

    ghost memory_is_explained = { λ _ _ _ _. tt };

    fn geometry(&self) -> Geometry {
        self.geometry
    }

    fn stays_sound(&mut self) {
        self.ledger.look();
    }

    /// No refusal of a plain store passes.
    fn again(&mut self, refused: &PlainRefused) -> bool
        ensures passing { result ≡ (⟦<PlainStore<L> as Store<L>>⟧.says refused.now).passing }
        ensures same { self.new ≡ self.old }
        ensures never { result ≡ false }
    {
        false
    }

    fn begin(&mut self, writing: bool) -> Result<(), PlainRefused> {
        self.ledger.look();
        self.txn.phase = if writing {
            Phase::Writing
        } else {
            Phase::Reading
        };
        Ok(())
    }

    fn read(&mut self, at: DPtr) -> Result<Words, PlainRefused> {
        self.ledger.look();
        match self.try_read(at) {
            Ok(words) => Ok(words),
            Err(none) => {
                self.txn.end();
                Err(none.into())
            }
        }
    }

    fn finish(&mut self) -> u64 {
        let place = self.ledger.look();
        self.txn.end();
        place
    }

    fn abort(&mut self) {
        self.ledger.look();
        self.txn.end();
    }

    fn write(&mut self, at: DPtr, words: Words) -> Result<(), PlainRefused> {
        self.ledger.look();
        match self.try_write(at, words) {
            Ok(()) => Ok(()),
            Err(none) => {
                self.txn.end();
                Err(none.into())
            }
        }
    }

    /// The new object is the least one of the rank that isn't reserved, is empty and isn't written.
    fn fresh(&mut self, home: u16) -> Result<DPtr, PlainRefused>
        requires begun { (⟦<PlainStore<L> as Store<L>>⟧.state self.old).phase ≡ Writing }
        requires rank { home < (⟦<PlainStore<L> as Store<L>>⟧.state self.old).shape.ranks }
        ensures keeps { Continues L.fits (⟦<PlainStore<L> as Store<L>>⟧.state self.old) (⟦<PlainStore<L> as Store<L>>⟧.state self.new) }
        ensures done { IfOk result (λ made. MakesObject home (⟦<PlainStore<L> as Store<L>>⟧.state self.old) (⟦<PlainStore<L> as Store<L>>⟧.state self.new) made) }
        ensures refused { IfErr result (λ why. RefusesFresh home (⟦<PlainStore<L> as Store<L>>⟧.state self.old) (⟦<PlainStore<L> as Store<L>>⟧.state self.new) (⟦<PlainStore<L> as Store<L>>⟧.says why)) }
        ensures explained { IfErr result (λ why. ⟦<PlainStore<L> as Store<L>>⟧.explains self.old self.new why) }
        ensures explained_still { StaysExplained ⟦<PlainStore<L> as Store<L>>⟧.explains self.old self.new }
        ensures least { let old = ⟦<PlainStore<L> as Store<L>>⟧.state self.old in IfOk result (λ made. IsFirstVacant old.shape (committed old) old.writes home made) }
        ensures none_left { let old = ⟦<PlainStore<L> as Store<L>>⟧.state self.old in IfErr result (λ why. (rank : ℕ) → why ≡ Empty rank → IsNoneVacant old.shape (committed old) old.writes rank) }
    {
        self.ledger.look();
        let Some(at) = first_vacant(&self.geometry, &self.committed, &self.txn.writes, home) else {
            self.txn.end();
            return Err(PlainRefused::Empty { rank: home });
        };
        match self.try_make(at) {
            Ok(()) => Ok(at),
            Err(none) => {
                self.txn.end();
                Err(none.into())
            }
        }
    }

    fn commit<C: Carries<L>>(&mut self, note: &C) -> Result<u64, PlainRefused> {
        let number = self
            .ledger
            .place::<C, Brand>(self.geometry, &self.txn, note);
        self.committed.absorb(&mut self.txn.writes);
        self.txn.end();
        Ok(number)
    }
}
