ghost use Rattle.std.specs.Prelude.{◌≡◌, ◌≢◌, ℕ, ◌<◌, ◌≤◌, false, true, length, IfOk, IfErr};
ghost use Rattle.gdi_kinds.specs.declared.no_memory.NoMemory.{NoMemory};
ghost use Rattle.rma_layout.specs.declared.limits.TheConstants.{MOST_WORDS};
ghost use Rattle.rma_layout.specs.Placement.{IsBlock};
ghost use Rattle.object_store.specs.declared.phase.Phase.TheVariants.{Idle, Reading, Writing};
ghost use Rattle.object_store.specs.State.{Said, StoreState, names_nothing, next_entry};
ghost use Rattle.object_store.specs.Sound.{Continues, IsSound, StaysExplained};
ghost use Rattle.object_store.specs.Calls.{Aborts, Begins, Commits, Finishes, MakesObject, MayWrite, ReadsObject, WritesObject};
ghost use Rattle.object_store.specs.Refusals.{RefusesAccess, RefusesBegin, RefusesCommit, RefusesFresh};

use gdi_kinds::NoMemory;
use object_words::{Carries, Law, Words};
use rma_layout::{DPtr, Geometry};

/// Transactions on objects. Everything of graphs stands on a store, and knows no more of it than this trait says.
///
/// After any refusal the transaction is aborted: no content was changed by it.
pub trait Store<L: Law> {
    /// Why a call is refused.
    type Refused: From<NoMemory>;

    /// Where the transaction stands, what it has read and written, and the history that was seen.
    ghost state: { Self → StoreState L.Note };

    /// Whether a refusal is explained by what came between a store and the store later.
    ghost explains: { Self → Self → Self.Refused → Type 0 };

    /// What a refusal names, whether it is for memory, and whether it passes.
    ghost says: { Self.Refused → Said };

    /// The geometry of the objects.
    fn geometry(&self) -> Geometry
        ensures { result ≡ (state self.now).shape };

    /// Does nothing to the store. It tells what holds at every moment, so that whoever was handed a store knows it before
    /// the first call.
    fn stays_sound(&mut self)
        ensures same { state self.new ≡ state self.old }
        ensures sound { IsSound L.fits (state self.new) }
        ensures explained_still { StaysExplained explains self.old self.new };

    /// Whether a refusal passes, so that the transaction may be tried again.
    fn again(&mut self, refused: &Self::Refused) -> bool
        ensures passing { result ≡ (says refused.now).passing }
        ensures same { self.new ≡ self.old };

    /// Begins a transaction, as writing or not. It takes no memory.
    fn begin(&mut self, writing: bool) -> Result<(), Self::Refused>
        requires { (state self.old).phase ≡ Idle }
        ensures keeps { Continues L.fits (state self.old) (state self.new) }
        ensures done { IfOk result (λ _. Begins writing (state self.old) (state self.new)) }
        ensures refused { IfErr result (λ why. RefusesBegin writing (state self.old) (state self.new) (says why)) }
        ensures lock_free { writing ≡ false → 0 < (state self.old).tries →
            (state self.new).takes ≡ (state self.old).takes }
        ensures explained { IfErr result (λ why. explains self.old self.new why) }
        ensures explained_still { StaysExplained explains self.old self.new };

    /// The words of an object: the transaction's own last write, else what is committed.
    fn read(&mut self, at: DPtr) -> Result<Words, Self::Refused>
        requires begun { (state self.old).phase ≢ Idle }
        requires object { IsBlock (state self.old).shape at }
        ensures keeps { Continues L.fits (state self.old) (state self.new) }
        ensures done { IfOk result (λ words. ReadsObject at (state self.old) (state self.new) words) }
        ensures refused { IfErr result (λ why. RefusesAccess at (state self.old) (state self.new) (says why)) }
        ensures explained { IfErr result (λ why. explains self.old self.new why) }
        ensures explained_still { StaysExplained explains self.old self.new };

    /// Gives an object new words, at most 1,048,576. To write no words to an object that isn't reserved gives its
    /// blocks up at the commit.
    fn write(&mut self, at: DPtr, words: Words) -> Result<(), Self::Refused>
        requires begun { (state self.old).phase ≡ Writing }
        requires object { IsBlock (state self.old).shape at }
        requires few { length words ≤ MOST_WORDS }
        requires may { MayWrite (state self.old) at }
        ensures keeps { Continues L.fits (state self.old) (state self.new) }
        ensures done { IfOk result (λ _. WritesObject at words (state self.old) (state self.new)) }
        ensures refused { IfErr result (λ why. RefusesAccess at (state self.old) (state self.new) (says why)) }
        ensures explained { IfErr result (λ why. explains self.old self.new why) }
        ensures explained_still { StaysExplained explains self.old self.new };

    /// A new object of a rank: it has no words in the history so far, and this transaction hasn't made it before.
    fn fresh(&mut self, home: u16) -> Result<DPtr, Self::Refused>
        requires begun { (state self.old).phase ≡ Writing }
        requires rank { home < (state self.old).shape.ranks }
        ensures keeps { Continues L.fits (state self.old) (state self.new) }
        ensures done { IfOk result (λ made. MakesObject home (state self.old) (state self.new) made) }
        ensures refused { IfErr result (λ why. RefusesFresh home (state self.old) (state self.new) (says why)) }
        ensures explained { IfErr result (λ why. explains self.old self.new why) }
        ensures explained_still { StaysExplained explains self.old self.new };

    /// Places what the transaction read and wrote in the history, as the entry of the number that it answers.
    fn commit<C: Carries<L>>(&mut self, note: &C) -> Result<u64, Self::Refused>
        requires begun { (state self.old).phase ≡ Writing }
        requires fits { L.fits (state self.old).shape (next_entry (state self.old) (C.note note.now)) }
        requires allowed { 0 < (state self.old).allowance }
        ensures keeps { Continues L.fits (state self.old) (state self.new) }
        ensures done { IfOk result (λ number. Commits (C.note note.now) (state self.old) (state self.new) number) }
        ensures refused { IfErr result (λ why. RefusesCommit (state self.old) (state self.new) (says why)) }
        ensures explained { IfErr result (λ why. explains self.old self.new why) }
        ensures explained_still { StaysExplained explains self.old self.new };

    /// Ends a transaction that doesn't write, and answers the place in the history at which all its reads hold.
    fn finish(&mut self) -> u64
        requires { (state self.old).phase ≡ Reading }
        ensures keeps { Continues L.fits (state self.old) (state self.new) }
        ensures done { Finishes (state self.old) (state self.new) result }
        ensures explained_still { StaysExplained explains self.old self.new };

    /// Ends the transaction and leaves every content as it was.
    fn abort(&mut self)
        requires { (state self.old).phase ≢ Idle }
        ensures keeps { Continues L.fits (state self.old) (state self.new) }
        ensures done { Aborts (state self.old) (state self.new) }
        ensures explained_still { StaysExplained explains self.old self.new };

    /// A refusal is for memory exactly where it is what NoMemory turns into, and there is one such refusal.
    ghost memory: { (none : NoMemory) (why : Self.Refused) →
        Self.Refused.from_gives none why → (says why).for_memory ≡ true };

    ghost memory_alone: { (none : NoMemory) (why : Self.Refused) →
        (says why).for_memory ≡ true → Self.Refused.from_gives none why };

    ghost memory_is_one: { (one other : Self.Refused) →
        (says one).for_memory ≡ true → (says other).for_memory ≡ true → one ≡ other };

    ghost memory_names_nothing: { (why : Self.Refused) →
        (says why).for_memory ≡ true → (says why).names ≡ names_nothing };

    ghost memory_lasts: { (why : Self.Refused) → (says why).for_memory ≡ true → (says why).passing ≡ false };

    ghost memory_is_explained: { (first last : Self) (why : Self.Refused) →
        (says why).for_memory ≡ true → explains first last why };
}
