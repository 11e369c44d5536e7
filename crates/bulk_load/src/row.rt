ghost use Rattle.std.specs.Prelude.{◌≡◌, ◌++◌, ◌∷◌, [], List, not, true, map, IfOk, OnOk, MatchResult};
ghost use Rattle.gdi_kinds.specs.declared.call.Call.{Call as ACall};
ghost use Rattle.gdi_kinds.specs.declared.call.Call.TheVariants.{Tag};
ghost use Rattle.text_words.specs.Forms.{texts};
ghost use Rattle.graph_model.specs.Transactions.{graph_after_calls};
ghost use Rattle.graph_model.specs.WellFormed.{IsWellFormed};
ghost use Rattle.bulk_load.specs.Rows.{IsWrong, SaysCalls, edge_call, is_too_large, making, meets_limit, misfit, misfits, new_labels, owner_of};
ghost use Rattle.bulk_load.specs.Stops.{DoesRecord, OrNoMemory};

use crate::columns::put_columns;
use crate::front::subject_of;
use crate::header::Header;
use crate::load_fault::LoadFault;
use crate::owner::Owner;
use crate::stop::Stop;
use crate::subject::Subject;
use gdi_kinds::{Call, CallList, Name, NoMemory, Reply};
use map_graph::MapGraph;

/// Does the calls of a record on the graph, and puts them behind `calls`.
pub(crate) fn load_record(
    header: &Header,
    fields: &[&[u8]],
    graph: &mut MapGraph,
    calls: &mut CallList,
) -> Result<(), Stop>
    requires { IsWellFormed graph.old.graph }
    ensures shape { graph.new.shape ≡ graph.old.shape }
    ensures well_formed { OnOk result (IsWellFormed graph.new.graph) }
    ensures record { MatchResult result
        (λ _. DoesRecord graph.old header.now (texts fields.now) calls.old calls.new graph.new)
        (OrNoMemory (IsWrong graph.old.shape graph.old.graph header.now (texts fields.now))) }
{
    let before = calls.len();
    let subject = say(header, fields, graph, calls)?;
    if misfits(graph, &subject) {
        return Err(Stop::Bad(misfit(&subject)));
    }
    if !do_calls(graph, &calls.as_slice()[before..])? {
        return Err(Stop::Bad(LoadFault::TooLarge));
    }
    Ok(())
}

// Puts the calls behind `calls` that a record says on the graph.
fn say(
    header: &Header,
    fields: &[&[u8]],
    graph: &MapGraph,
    calls: &mut CallList,
) -> Result<Subject, Stop>
    ensures { MatchResult result
        (λ says. (own : List ACall) × SaysCalls graph.now.graph header.now (texts fields.now) says own × (calls.new ≡ calls.old ++ own))
        (OrNoMemory (IsWrong graph.now.shape graph.now.graph header.now (texts fields.now))) }
{
    let front = header.lead.width();
    if fields.len() < front || fields.len() - front != header.columns.len() {
        return Err(Stop::Bad(LoadFault::FieldCount));
    }
    let alloc = graph.alloc();
    let subject = subject_of(alloc, header.lead, fields)?;
    push_making(graph, &subject, calls)?;
    let owner = owner_of(graph, &subject);
    put_columns(
        alloc,
        owner,
        header.columns.as_slice(),
        &fields[front..],
        calls,
    )?;
    Ok(subject)
}

// Puts the calls behind `calls` that make a vertex with its labels, or an edge.
fn push_making(graph: &MapGraph, subject: &Subject, calls: &mut CallList) -> Result<(), NoMemory>
    ensures { OnOk result (calls.new ≡ calls.old ++ making graph.now.graph subject.now) }
{
    match subject {
        Subject::Vertex { id, labels } => {
            push_new_labels(graph, labels.as_slice(), calls)?;
            calls.push(Call::Vertex { id: *id })?;
            push_tags(*id, labels.as_slice(), calls)
        }
        Subject::Edge {
            undirected,
            source,
            target,
            label,
        } => {
            if let Some(label) = label {
                push_new_label(graph, label, calls)?;
            }
            calls.push(edge_call(*undirected, *source, *target, *label))
        }
    }
}

fn push_new_labels(graph: &MapGraph, names: &[Name], calls: &mut CallList) -> Result<(), NoMemory>
    ensures { OnOk result (calls.new ≡ calls.old ++ new_labels graph.now.graph names.now) }
{
    for name in names {
        push_new_label(graph, name, calls)?;
    }
    Ok(())
}

fn push_tags(id: u64, names: &[Name], calls: &mut CallList) -> Result<(), NoMemory>
    ensures { OnOk result (calls.new ≡ calls.old ++ map (Tag id) names.now) }
{
    for name in names {
        calls.push(Call::Tag { id, label: *name })?;
    }
    Ok(())
}

fn push_new_label(graph: &MapGraph, name: &Name, calls: &mut CallList) -> Result<(), NoMemory>
    ensures { OnOk result (calls.new ≡ calls.old ++ new_labels graph.now.graph (name.now ∷ [])) }
{
    if graph.has_label(name) {
        return Ok(());
    }
    calls.push(Call::NewLabel { name: *name })
}

fn edge_call(undirected: bool, source: u64, target: u64, label: Option<Name>) -> Call
    ensures { result ≡ edge_call undirected source target label }
{
    if undirected {
        Call::UEdge {
            source,
            target,
            label,
        }
    } else {
        Call::Edge {
            source,
            target,
            label,
        }
    }
}

// What has the properties of a record.
fn owner_of(graph: &MapGraph, subject: &Subject) -> Owner
    ensures { result ≡ owner_of graph.now.graph subject.now }
{
    match subject {
        Subject::Vertex { id, .. } => Owner::Vertex(*id),
        Subject::Edge { source, .. } => Owner::Edge(*source, graph.next_ordinal(*source)),
    }
}

// Whether a vertex is there already, or an end of an edge isn't.
fn misfits(graph: &MapGraph, subject: &Subject) -> bool
    ensures { result ≡ misfits graph.now.graph subject.now }
{
    match subject {
        Subject::Vertex { id, .. } => graph.is_vertex(*id),
        Subject::Edge { source, target, .. } => {
            !graph.is_vertex(*source) || !graph.is_vertex(*target)
        }
    }
}

fn misfit(subject: &Subject) -> LoadFault
    ensures { result ≡ misfit subject.now }
{
    match subject {
        Subject::Vertex { .. } => LoadFault::VertexThere,
        Subject::Edge { .. } => LoadFault::NoEnd,
    }
}

/// Does calls one after the other, up to the first that would make an object too large. True: there was none.
pub(crate) fn do_calls(graph: &mut MapGraph, calls: &[Call]) -> Result<bool, NoMemory>
    requires { IsWellFormed graph.old.graph }
    ensures shape { graph.new.shape ≡ graph.old.shape }
    ensures limit { IfOk result (λ within. within ≡ not (meets_limit graph.old.shape graph.old.graph calls.now)) }
    ensures graph { IfOk result (λ within. within ≡ true → graph.new.graph ≡ graph_after_calls graph.old.shape graph.old.graph calls.now) }
    ensures well_formed { OnOk result (IsWellFormed graph.new.graph) }
{
    for call in calls {
        let reply = match graph.apply(call) {
            Ok(reply) => reply,
            Err(_) => return Err(NoMemory),
        };
        if is_too_large(&reply) {
            return Ok(false);
        }
    }
    Ok(true)
}

fn is_too_large(reply: &Reply) -> bool
    ensures { result ≡ is_too_large reply.now }
{
    matches!(reply, Reply::TooLarge)
}
