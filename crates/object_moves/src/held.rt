ghost use Rattle.std.specs.Prelude.{◌≡◌, ◌≢◌, [], ◌∷◌, None, Some, IfNone, IfSome, OnErr, OnOk, if◌then◌else◌};
ghost use Rattle.rma_layout.specs.Placement.{Place, same_place};
ghost use Rattle.object_words.specs.Chains.{place_of};
ghost use Rattle.window_rule.specs.ContentsHold.{Lasts};
ghost use Rattle.window_rule.specs.Locks.{hold_of};
ghost use Rattle.object_moves.specs.Held.{hold_as, hold_in};

use crate::loading::pointer;
use gdi_kinds::NoMemory;
use rma_layout::DPtr;
use std::alloc::Global;
use std::collections::BTreeMap;
use std::marker::Model;

/// How a transaction has an object locked.
#[derive(Clone, Copy, Debug, PartialEq, Eq)]
pub enum Mode {
    /// Others may share it too.
    Shared,
    /// Nobody else has it.
    Marked,
}

/// The objects that a transaction has locked, each once. Contracts see them as locks of a rank.
#[derive(Drop)]
pub struct HeldObjects {
    modes: BTreeMap<u64, Mode, Global>,
}

impl Model for HeldObjects {
    ghost use Rattle.window_rule.specs.View.{Locks};
    ghost use Rattle.object_moves.specs.Held.{locks_in};

    ghost Value = { Locks };

    ghost view = { λ held. locks_in held.modes.entries };
}

impl HeldObjects {
    /// No objects. It takes no memory.
    pub fn new(alloc: Global) -> HeldObjects
        ensures { result ≡ [] }
    {
        HeldObjects {
            modes: BTreeMap::new(alloc),
        }
    }

    /// How an object is locked, if it is.
    pub fn mode(&self, at: DPtr) -> Option<Mode>
        ensures { hold_in result ≡ hold_of self.now at }
    {
        self.modes.get(&key(at)).copied()
    }

    /// Does nothing, and tells that each of the locks lasts.
    pub fn keeps_lasting(&self)
        ensures { (object : Place) → hold_of self.now object ≢ None → Lasts (hold_of self.now object) }
    {
        let _modes = &self.modes;
    }

    /// Notes how an object is locked. After a refusal nothing is changed, and none comes where the object is noted already.
    pub fn put(&mut self, at: DPtr, mode: Mode) -> Result<(), NoMemory>
        ensures ok { OnOk result ((other : Place) → hold_of self.new other ≡
            (if same_place at other then Some (hold_as mode) else hold_of self.old other)) }
        ensures err { OnErr result (self.new ≡ self.old) }
        ensures absent { OnErr result (hold_of self.old at ≡ None) }
    {
        self.modes.insert(key(at), mode)?;
        Ok(())
    }

    /// Takes the first object out.
    pub fn pop_first(&mut self) -> Option<(DPtr, Mode)>
        ensures some { IfSome result (λ one. self.old ≡ (one.0, hold_as one.1) ∷ self.new) }
        ensures once { IfSome result (λ one. hold_of self.new one.0 ≡ None) }
        ensures none { IfNone result ((self.old ≡ []) × (self.new ≡ [])) }
    {
        let (raw, mode) = self.modes.pop_first()?;
        Some((pointer(raw), mode))
    }
}

/// The word of this pointer.
pub(crate) fn key(at: DPtr) -> u64
    ensures { place_of result ≡ at }
{
    at.raw()
}
