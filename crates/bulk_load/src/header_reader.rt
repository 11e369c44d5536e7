ghost use Rattle.std.specs.Prelude.{◌≡◌, ◌≢◌, ◌++◌, ◌∷◌, ℕ, List, length, drop, map, Bool, if◌then◌else◌, codes, MatchOption, IfOk, [], ◌+◌};
ghost use Rattle.std.specs.List.{list_any};
ghost use Rattle.std.specs.Bool.{MatchBool};
ghost use Rattle.std.specs.Str.{bytes_eq};
ghost use Rattle.gdi_kinds.specs.Names.{IsName};
ghost use Rattle.gdi_kinds.specs.declared.value.Kind.{Kind as AKind};
ghost use Rattle.gdi_kinds.specs.Constraint.{same_kind};
ghost use Rattle.text_words.specs.Forms.{texts};
ghost use Rattle.text_words.specs.Spelling.{kind_text};
ghost use Rattle.bulk_load.specs.declared.column.Column.{Column as AColumn};
ghost use Rattle.bulk_load.specs.declared.header.Header.{Header as AHeader};
ghost use Rattle.bulk_load.specs.Headers.{AreColumns, IsHeader, agrees, column_text, file_of, lead_fields};
ghost use Rattle.bulk_load.specs.Cuts.{LeadOrNone, LeadsOrNot};

use crate::column::Column;
use crate::header::Header;
use crate::lead::Lead;
use crate::load_file::LoadFile;
use gdi_kinds::{Kind, ListOf, Name, NoMemory};
use map_graph::MapGraph;
use text_words::position_of;

const MOST_COLUMNS: usize = 256;

/// The header that the fields of a record are on a graph.
pub(crate) fn header_of(
    file: LoadFile,
    fields: &[&[u8]],
    graph: &MapGraph,
) -> Result<Option<Header>, NoMemory>
    ensures { IfOk result (λ read. MatchOption read ((header : AHeader) → ¬ IsHeader graph.now.graph file (texts fields.now) header) (IsHeader graph.now.graph file (texts fields.now))) }
{
    if fields.len() > MOST_COLUMNS {
        return Ok(None);
    }
    let Some(lead) = lead_of(file, fields) else {
        return Ok(None);
    };
    match columns_of(&fields[lead.width()..], graph)? {
        Some(columns) => Ok(Some(Header { lead, columns })),
        None => Ok(None),
    }
}

// The columns in front that the fields of a header begin with.
fn lead_of(file: LoadFile, fields: &[&[u8]]) -> Option<Lead>
    ensures { LeadOrNone file (texts fields.now) result }
{
    match file {
        LoadFile::Vertices => vertex_lead_of(fields),
        LoadFile::Edges => edge_lead_of(fields),
    }
}

fn vertex_lead_of(fields: &[&[u8]]) -> Option<Lead>
    ensures { LeadOrNone LoadFile.Vertices (texts fields.now) result }
{
    if leads_vertices(fields) {
        return Some(Lead::Vertices);
    }
    None
}

fn edge_lead_of(fields: &[&[u8]]) -> Option<Lead>
    ensures { LeadOrNone LoadFile.Edges (texts fields.now) result }
{
    if leads_marked_edges(fields) {
        return Some(Lead::MarkedEdges);
    }
    if leads_edges(fields) {
        return Some(Lead::Edges);
    }
    None
}

fn leads_vertices(fields: &[&[u8]]) -> bool
    ensures { LeadsOrNot Lead.Vertices (texts fields.now) result }
{
    let [id, labels, ..] = fields else {
        return false;
    };
    if !is_same(id, b":ID") {
        return false;
    }
    if !is_same(labels, b":LABEL") {
        return false;
    }
    true
}

fn leads_edges(fields: &[&[u8]]) -> bool
    ensures { LeadsOrNot Lead.Edges (texts fields.now) result }
{
    let [start, end, label, ..] = fields else {
        return false;
    };
    if !is_same(start, b":START_ID") {
        return false;
    }
    if !is_same(end, b":END_ID") {
        return false;
    }
    if !is_same(label, b":TYPE") {
        return false;
    }
    true
}

fn leads_marked_edges(fields: &[&[u8]]) -> bool
    ensures { LeadsOrNot Lead.MarkedEdges (texts fields.now) result }
{
    let [_, _, _, mark, ..] = fields else {
        return false;
    };
    if !leads_edges(fields) {
        return false;
    }
    if !is_same(mark, b":UNDIRECTED") {
        return false;
    }
    true
}

fn is_same(a: &[u8], b: &[u8]) -> bool
    ensures { MatchBool result (a.now ≡ b.now) (a.now ≢ b.now) }
{
    a == b
}

// The columns that are headed by the fields of a header behind those in front.
fn columns_of(fields: &[&[u8]], graph: &MapGraph) -> Result<Option<ListOf<Column>>, NoMemory>
    ensures { IfOk result (λ read. MatchOption read ((columns : List AColumn) → ¬ AreColumns graph.now.graph (texts fields.now) columns) (AreColumns graph.now.graph (texts fields.now))) }
{
    let mut columns = ListOf::new(graph.alloc());
    for field in fields {
        let Some(column) = column_of(field) else {
            return Ok(None);
        };
        if is_headed(&column.name, columns.as_slice()) {
            return Ok(None);
        }
        if !agrees(graph, &column) {
            return Ok(None);
        }
        columns.push(column)?;
    }
    Ok(Some(columns))
}

// The column that is headed so.
fn column_of(field: &[u8]) -> Option<Column>
    ensures { MatchOption result ((column : AColumn) → IsName column.name → field.now ≢ column_text column) (λ column. IsName column.name × (field.now ≡ column_text column)) }
{
    let Some(end) = position_of(b':', field) else {
        return None;
    };
    let Some(name) = Name::of(&field[..end]) else {
        return None;
    };
    match kind_and_mark_of(&field[end + 1..]) {
        Some((kind, many)) => Some(Column { name, kind, many }),
        None => None,
    }
}

// The kind of a type and whether it is marked.
fn kind_and_mark_of(text: &[u8]) -> Option<(Kind, bool)>
    ensures { MatchOption result ((kind : AKind) (many : Bool) → text.now ≢ kind_text kind ++ (if many then codes "[]" else []))
        (λ x. text.now ≡ kind_text x.0 ++ (if x.1 then codes "[]" else [])) }
{
    match text {
        b"int" => Some((Kind::Int, false)),
        b"bool" => Some((Kind::Bool, false)),
        b"text" => Some((Kind::Text, false)),
        b"int[]" => Some((Kind::Int, true)),
        b"bool[]" => Some((Kind::Bool, true)),
        b"text[]" => Some((Kind::Text, true)),
        _ => None,
    }
}

// Whether a column of this name is among columns.
fn is_headed(name: &Name, columns: &[Column]) -> bool
    ensures { result ≡ list_any (λ column. bytes_eq name.now column.name) columns.now }
{
    columns.iter().any(|column| *name == column.name)
}

// Whether the type of a column isn't there with another kind or mark.
fn agrees(graph: &MapGraph, column: &Column) -> bool
    ensures { result ≡ agrees graph.now.graph column.now }
{
    match graph.prop_type(&column.name) {
        Some((kind, many)) => is_same_kind(kind, column.kind) && many == column.many,
        None => true,
    }
}

fn is_same_kind(a: Kind, b: Kind) -> bool
    ensures { result ≡ same_kind a b }
{
    a == b
}
