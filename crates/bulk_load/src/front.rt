ghost use Rattle.std.specs.Prelude.{◌≡◌, ◌≤◌, ◌++◌, ◌∷◌, ℕ, Bool, List, Option, length, drop, IfOk, MatchOption, MatchResult};
ghost use Rattle.std.specs.List.{list_any};
ghost use Rattle.std.specs.Str.{bytes_eq};
ghost use Rattle.text_words.specs.Forms.{texts};
ghost use Rattle.bulk_load.specs.Fields.{AreLabels, FirstWrong, IsId, IsLabel, IsMark, Says, Sort, an_id, a_label, a_mark, some_labels, lead_sorts};
ghost use Rattle.bulk_load.specs.Stops.{OrNoMemory};
ghost use Rattle.bulk_load.specs.declared.load_fault.LoadFault.TheVariants as fault;

use crate::lead::Lead;
use crate::load_fault::LoadFault;
use crate::pieces::first_piece;
use crate::stop::Stop;
use crate::subject::Subject;
use gdi_kinds::{Name, NameList, NoMemory};
use std::alloc::Global;
use text_words::number_of;

/// What the fields in front say, or the fault of the leftmost of them that is misspelled.
pub(crate) fn subject_of(alloc: Global, lead: Lead, fields: &[&[u8]]) -> Result<Subject, Stop>
    requires { length (lead_sorts lead) ≤ length fields.now }
    ensures { MatchResult result
        (λ says. Says lead (texts fields.now) says (drop (length (lead_sorts lead)) (texts fields.now)))
        (OrNoMemory (λ told. (sorts : List Sort) → FirstWrong (lead_sorts lead ++ sorts) (texts fields.now) told)) }
{
    match lead {
        Lead::Vertices => vertex_of(alloc, fields),
        Lead::Edges => edge_of(fields),
        Lead::MarkedEdges => marked_edge_of(fields),
    }
}

fn vertex_of(alloc: Global, fields: &[&[u8]]) -> Result<Subject, Stop>
    requires { 2 ≤ length fields.now }
    ensures { MatchResult result
        (λ says. Says Lead.Vertices (texts fields.now) says (drop 2 (texts fields.now)))
        (OrNoMemory (λ told. (sorts : List Sort) → FirstWrong (an_id ∷ some_labels ∷ sorts) (texts fields.now) told)) }
{
    let [id, labels, ..] = fields else {
        unreachable!()
    };
    let id = id_of(id)?;
    let labels = labels_of(alloc, labels)?;
    Ok(Subject::Vertex { id, labels })
}

fn edge_of(fields: &[&[u8]]) -> Result<Subject, Stop>
    requires { 3 ≤ length fields.now }
    ensures { MatchResult result
        (λ says. Says Lead.Edges (texts fields.now) says (drop 3 (texts fields.now)))
        (OrNoMemory (λ told. (sorts : List Sort) → FirstWrong (an_id ∷ an_id ∷ a_label ∷ sorts) (texts fields.now) told)) }
{
    let [source, target, label, ..] = fields else {
        unreachable!()
    };
    let source = id_of(source)?;
    let target = id_of(target)?;
    let label = label_of(label)?;
    Ok(Subject::Edge {
        undirected: false,
        source,
        target,
        label,
    })
}

fn marked_edge_of(fields: &[&[u8]]) -> Result<Subject, Stop>
    requires { 4 ≤ length fields.now }
    ensures { MatchResult result
        (λ says. Says Lead.MarkedEdges (texts fields.now) says (drop 4 (texts fields.now)))
        (OrNoMemory (λ told. (sorts : List Sort) → FirstWrong (an_id ∷ an_id ∷ a_label ∷ a_mark ∷ sorts) (texts fields.now) told)) }
{
    let [source, target, label, mark, ..] = fields else {
        unreachable!()
    };
    let source = id_of(source)?;
    let target = id_of(target)?;
    let label = label_of(label)?;
    let undirected = mark_of(mark)?;
    Ok(Subject::Edge {
        undirected,
        source,
        target,
        label,
    })
}

fn id_of(field: &[u8]) -> Result<u64, Stop>
    ensures { MatchResult result (IsId field.now)
        (OrNoMemory (λ told. (told ≡ fault.Identifier) × ((id : ℕ) → ¬ IsId field.now id))) }
{
    match number_of(field) {
        Some(id) => Ok(id),
        None => Err(Stop::Bad(LoadFault::Identifier)),
    }
}

fn label_of(field: &[u8]) -> Result<Option<Name>, Stop>
    ensures { MatchResult result (IsLabel field.now)
        (OrNoMemory (λ told. (told ≡ fault.Label) × ((label : Option (List ℕ)) → ¬ IsLabel field.now label))) }
{
    if field.is_empty() {
        return Ok(None);
    }
    match Name::of(field) {
        Some(label) => Ok(Some(label)),
        None => Err(Stop::Bad(LoadFault::Label)),
    }
}

fn mark_of(field: &[u8]) -> Result<bool, Stop>
    ensures { MatchResult result (IsMark field.now)
        (OrNoMemory (λ told. (told ≡ fault.Value) × ((undirected : Bool) → ¬ IsMark field.now undirected))) }
{
    match field {
        b"true" => Ok(true),
        b"false" | [] => Ok(false),
        _ => Err(Stop::Bad(LoadFault::Value)),
    }
}

fn labels_of(alloc: Global, field: &[u8]) -> Result<NameList, Stop>
    ensures { MatchResult result (AreLabels field.now)
        (OrNoMemory (λ told. (told ≡ fault.Label) × ((labels : List (List ℕ)) → ¬ AreLabels field.now labels))) }
{
    match read_labels(alloc, field)? {
        Some(labels) => Ok(labels),
        None => Err(Stop::Bad(LoadFault::Label)),
    }
}

// The labels of a field of labels.
fn read_labels(alloc: Global, field: &[u8]) -> Result<Option<NameList>, NoMemory>
    ensures { IfOk result (λ read. MatchOption read ((labels : List (List ℕ)) → ¬ AreLabels field.now labels) (AreLabels field.now)) }
{
    let mut labels = NameList::new(alloc);
    if field.is_empty() {
        return Ok(Some(labels));
    }
    let mut rest = field;
    'pieces: loop {
        let (piece, behind) = first_piece(rest);
        let Some(label) = Name::of(piece) else {
            return Ok(None);
        };
        if is_among(&label, labels.as_slice()) {
            return Ok(None);
        }
        labels.push(label)?;
        match behind {
            Some(next) => rest = next,
            None => return Ok(Some(labels)),
        }
    }
}

/// Whether a name is among names.
pub(crate) fn is_among(name: &Name, names: &[Name]) -> bool
    ensures { result ≡ list_any (bytes_eq name.now) names.now }
{
    names.iter().any(|other| name == other)
}
