ghost use Rattle.std.specs.Prelude.{◌≡◌, ◌≤◌, IfOk, IsOkAnd, OnOk, false, length};
ghost use Rattle.rma_layout.specs.Placement.{IsBlock};
ghost use Rattle.graph_model.specs.Sizes.{is_too_large};
ghost use Rattle.object_store.specs.declared.phase.Phase.TheVariants.{Writing};
ghost use Rattle.object_store.specs.Calls.{MayWrite};
ghost use Rattle.object_store.specs.Works.{Nowhere, Works};
ghost use Rattle.held_objects.specs.Changes.{IfMade};
ghost use Rattle.edge_ops.specs.Ending.{AreFew, AreHolders, IsSpelling, SettlesEnds, WritesEnds, WritesWords, are_too_large};
ghost use Rattle.edge_ops.specs.Ends.{Either};

use crate::ends::{Ends, Spelling};
use gdi_kinds::{NoMemory, Reply};
use held_objects::Change;
use holder_codec::KeepsGraph;
use object_store::{Store, give_up};
use object_words::Words;
use rma_layout::{DPtr, MOST_WORDS};
use std::alloc::Global;

/// Gives the ends what was made of them, and replies that it is done; or replies why nothing was made, or TooLarge where
/// one of them has more words than an object may have. Where they were not made for want of memory, the transaction is
/// given up.
pub(crate) fn settle_ends<L: KeepsGraph, S: Store<L>>(
    alloc: Global,
    store: &mut S,
    source: DPtr,
    target: DPtr,
    change: Result<Change<Ends>, NoMemory>,
    done: Reply,
) -> Result<Reply, S::Refused>
    requires begun { (S.state store.old).phase ≡ Writing }
    requires source { IsBlock (S.state store.old).shape source }
    requires target { IsBlock (S.state store.old).shape target }
    requires may_source { MayWrite (S.state store.old) source }
    requires may_target { MayWrite (S.state store.old) target }
    requires is { IfOk change (IfMade AreHolders) }
    ensures works { Works L.fits S.state S.explains S.says (Either source target) Nowhere store.old store.new result }
    ensures settled { IfOk result (λ reply. IsOkAnd change (λ made. SettlesEnds source target done (S.state store.old) (S.state store.new) made reply)) }
{
    let ends = match change {
        Ok(Change::Made(ends)) => ends,
        Ok(Change::Refused(reply)) => {
            store.stays_sound();
            return Ok(reply);
        }
        Err(NoMemory) => return Err(give_up(store)),
    };
    let Ok(spelled) = spell(alloc, &ends) else {
        return Err(give_up(store));
    };
    let Some(words) = spelled else {
        store.stays_sound();
        return Ok(Reply::TooLarge);
    };
    write_ends(store, source, target, words)?;
    Ok(done)
}

/// Gives the ends what was made of them, where none of them has too many words. Where they were not made for want of memory,
/// the transaction is given up.
pub(crate) fn put_ends<L: KeepsGraph, S: Store<L>>(
    alloc: Global,
    store: &mut S,
    source: DPtr,
    target: DPtr,
    made: Result<Ends, NoMemory>,
) -> Result<(), S::Refused>
    requires begun { (S.state store.old).phase ≡ Writing }
    requires source { IsBlock (S.state store.old).shape source }
    requires target { IsBlock (S.state store.old).shape target }
    requires may_source { MayWrite (S.state store.old) source }
    requires may_target { MayWrite (S.state store.old) target }
    requires is { IfOk made AreHolders }
    requires small { IfOk made (λ ends. are_too_large ends ≡ false) }
    ensures works { Works L.fits S.state S.explains S.says (Either source target) Nowhere store.old store.new result }
    ensures wrote { OnOk result (IsOkAnd made (λ ends. WritesEnds source target ends (S.state store.old) (S.state store.new))) }
{
    let Ok(ends) = made else {
        return Err(give_up(store));
    };
    let Ok(spelled) = spell(alloc, &ends) else {
        return Err(give_up(store));
    };
    let Some(words) = spelled else { unreachable!() };
    write_ends(store, source, target, words)
}

/// The words of the ends, unless one of them has too many.
fn spell(alloc: Global, ends: &Ends) -> Result<Option<Spelling>, NoMemory>
    requires { AreHolders ends.now }
    ensures { IfOk result (λ spelled. IsSpelling ends.now spelled) }
{
    let source = ends.source.write(alloc)?;
    if has_too_many(&source) {
        return Ok(None);
    }
    let Some(holder) = &ends.target else {
        return Ok(Some(Spelling {
            source,
            target: None,
        }));
    };
    let target = holder.write(alloc)?;
    if has_too_many(&target) {
        return Ok(None);
    }
    Ok(Some(Spelling {
        source,
        target: Some(target),
    }))
}

fn has_too_many(words: &Words) -> bool
    ensures { result ≡ is_too_large (length words.now) }
{
    words.as_slice().len() as u64 > MOST_WORDS
}

fn write_ends<L: KeepsGraph, S: Store<L>>(
    store: &mut S,
    source: DPtr,
    target: DPtr,
    words: Spelling,
) -> Result<(), S::Refused>
    requires begun { (S.state store.old).phase ≡ Writing }
    requires source { IsBlock (S.state store.old).shape source }
    requires target { IsBlock (S.state store.old).shape target }
    requires may_source { MayWrite (S.state store.old) source }
    requires may_target { MayWrite (S.state store.old) target }
    requires few { AreFew words }
    ensures works { Works L.fits S.state S.explains S.says (Either source target) Nowhere store.old store.new result }
    ensures wrote { OnOk result (WritesWords source target words (S.state store.old) (S.state store.new)) }
{
    let Spelling {
        source: first,
        target: second,
    } = words;
    store.write(source, first)?;
    let Some(second) = second else {
        return Ok(());
    };
    store.write(target, second)?;
    Ok(())
}
