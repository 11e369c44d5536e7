ghost use Rattle.std.specs.Prelude.{◌≡◌, ◌≤◌, length, IfErr, IfOk, MatchOption, OnOk};
ghost use Rattle.rma_layout.specs.declared.limits.TheConstants.{MOST_WORDS};
ghost use Rattle.object_store.specs.declared.phase.Phase.TheVariants.{Writing};
ghost use Rattle.object_store.specs.Works.{Fell, Nowhere, Went, Works};
ghost use Rattle.holder_codec.specs.declared.edge_form.EdgeForm.TheVariants.{Heavy};
ghost use Rattle.holder_codec.specs.EdgeObject.{IsEdgeHolder};
ghost use Rattle.holder_codec.specs.Edges.{FormFits};
ghost use Rattle.vertex_ops.specs.Vertices.{HomeOf};
ghost use Rattle.edge_ops.specs.Forming.{AtRecordOrHome, GivesEdge, GivesForm, GivesObject, IsOpen};
ghost use Rattle.edge_ops.specs.Opening.{IsAtRecord, MatchForm};

use crate::formed::set_form;
use crate::opened::Opened;
use crate::own_object::clear_own;
use crate::wanted::{Wanted, wanted_by};
use gdi_kinds::NoMemory;
use holder_codec::{EdgeForm, EdgeHolder, KeepsGraph};
use object_store::{Store, give_up};
use object_words::Words;
use rma_layout::DPtr;
use std::alloc::Global;

/// Gives an edge that was read these labels and properties. It answers false, and writes nothing, exactly where its own
/// object would have more words than an object may have.
pub(crate) fn give<L: KeepsGraph, S: Store<L>>(
    alloc: Global,
    store: &mut S,
    source: DPtr,
    opened: Opened,
    holder: &EdgeHolder,
) -> Result<bool, S::Refused>
    requires begun { (S.state store.old).phase ≡ Writing }
    requires open { IsOpen source opened (S.state store.old) }
    requires holder { IsEdgeHolder holder.now }
    ensures went { IfOk result (λ _. Went L.fits S.state S.explains (AtRecordOrHome source holder.now.source opened.edge) (HomeOf holder.now.source) store.old store.new) }
    ensures fell { IfErr result (λ why. Fell L.fits S.state S.explains S.says (λ _. IsAtRecord source opened.edge) (HomeOf holder.now.source) store.old store.new why) }
    ensures given { IfOk result (λ kept. GivesEdge source holder.now opened (S.state store.old) (S.state store.new) kept) }
{
    match wanted_by(alloc, holder) {
        Ok(Wanted::Form(form)) => {
            give_form(alloc, store, source, opened, form)?;
            Ok(true)
        }
        Ok(Wanted::Object(words)) => {
            give_object(alloc, store, source, holder.source, opened, words)?;
            Ok(true)
        }
        Ok(Wanted::TooLarge) => {
            store.stays_sound();
            Ok(false)
        }
        Err(NoMemory) => Err(give_up(store)),
    }
}

/// The edge has this form of a light one from now on, and no object of its own.
fn give_form<L: KeepsGraph, S: Store<L>>(
    alloc: Global,
    store: &mut S,
    source: DPtr,
    opened: Opened,
    form: EdgeForm,
) -> Result<(), S::Refused>
    requires begun { (S.state store.old).phase ≡ Writing }
    requires open { IsOpen source opened (S.state store.old) }
    requires form { FormFits form }
    ensures works { Works L.fits S.state S.explains S.says (λ _. IsAtRecord source opened.edge) Nowhere store.old store.new result }
    ensures given { OnOk result (GivesForm source form opened (S.state store.new)) }
{
    let own = form_of(&opened);
    set_form(alloc, store, source, opened, form)?;
    clear_own(alloc, store, own)
}

fn form_of(opened: &Opened) -> EdgeForm
    ensures { result ≡ opened.now.edge.form }
{
    opened.edge.form
}

/// The edge's own object has these words from now on. It is made where the edge has none.
fn give_object<L: KeepsGraph, S: Store<L>>(
    alloc: Global,
    store: &mut S,
    source: DPtr,
    id: u64,
    opened: Opened,
    words: Words,
) -> Result<(), S::Refused>
    requires begun { (S.state store.old).phase ≡ Writing }
    requires open { IsOpen source opened (S.state store.old) }
    requires few { length words ≤ MOST_WORDS }
    ensures went { OnOk result (Went L.fits S.state S.explains (AtRecordOrHome source id opened.edge) (HomeOf id) store.old store.new) }
    ensures fell { IfErr result (λ why. Fell L.fits S.state S.explains S.says (λ _. IsAtRecord source opened.edge) (HomeOf id) store.old store.new why) }
    ensures given { OnOk result (GivesObject source id words opened (S.state store.old) (S.state store.new)) }
{
    match own_of(&opened) {
        Some(own) => {
            store.write(own, words)?;
            Ok(())
        }
        None => make_object(alloc, store, source, id, opened, words),
    }
}

/// The edge's own object, if it has one.
fn own_of(opened: &Opened) -> Option<DPtr>
    ensures { MatchOption result (MatchForm opened.now.edge.form (λ _. Unit {0}) (λ _. ⊥)) (λ own. opened.now.edge.form ≡ Heavy own) }
{
    match opened.edge.form {
        EdgeForm::Heavy(own) => Some(own),
        _ => None,
    }
}

/// A light edge has an object of its own from now on, with these words.
fn make_object<L: KeepsGraph, S: Store<L>>(
    alloc: Global,
    store: &mut S,
    source: DPtr,
    id: u64,
    opened: Opened,
    words: Words,
) -> Result<(), S::Refused>
    requires begun { (S.state store.old).phase ≡ Writing }
    requires open { IsOpen source opened (S.state store.old) }
    requires light { MatchForm opened.edge.form (λ _. Unit {0}) (λ _. ⊥) }
    requires few { length words ≤ MOST_WORDS }
    ensures went { OnOk result (Went L.fits S.state S.explains (AtRecordOrHome source id opened.edge) (HomeOf id) store.old store.new) }
    ensures fell { IfErr result (λ why. Fell L.fits S.state S.explains S.says (λ _. IsAtRecord source opened.edge) (HomeOf id) store.old store.new why) }
    ensures given { OnOk result (GivesObject source id words opened (S.state store.old) (S.state store.new)) }
{
    let geometry = store.geometry();
    geometry.keeps_ranges();
    let own = store.fresh(geometry.home(id))?;
    set_form(alloc, store, source, opened, EdgeForm::Heavy(own))?;
    store.write(own, words)?;
    Ok(())
}
