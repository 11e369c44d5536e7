ghost use Rattle.std.specs.Prelude.{◌≢◌};
ghost use Rattle.object_store.specs.declared.phase.Phase.TheVariants.{Idle};
ghost use Rattle.object_store.specs.State.{StoreState};
ghost use Rattle.object_store.specs.Works.{GaveUp};

use crate::Store;
use gdi_kinds::NoMemory;
use object_words::Law;

/// Ends a transaction whose caller found no memory, and answers that as a refusal of the store. So a call that works
/// on a store has aborted the transaction after each refusal, whoever found no memory.
pub fn give_up<L: Law, S: Store<L>>(store: &mut S) -> S::Refused
    requires { (S.state store.old).phase ≢ Idle }
    ensures { GaveUp L.fits S.state S.explains S.says store.old store.new result }
{
    store.abort();
    S::Refused::from(NoMemory)
}
