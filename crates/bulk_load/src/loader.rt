ghost use Rattle.std.specs.Prelude.{◌≡◌, ◌↔◌, ◌∷◌, [], ℕ, List, IsTrue, IfOk, OnOk, MatchResult};
ghost use Rattle.graph_model.specs.Transactions.{graph_after_txn};
ghost use Rattle.graph_model.specs.WellFormed.{IsWellFormed};
ghost use Rattle.bulk_load.specs.declared.load_refused.LoadRefused.TheVariants as refused;
ghost use Rattle.bulk_load.specs.Records.{Fields, HasPairedQuotes};
ghost use Rattle.bulk_load.specs.Reading.{HasRead, IsPlain};
ghost use Rattle.bulk_load.specs.Stops.{LoadsBehind, TellsBehind, refused_at};
ghost use Rattle.bulk_load.specs.Loads.{Loads, TellsWrong, new_types};

use crate::header::Header;
use crate::header_reader::header_of;
use crate::load_fault::LoadFault;
use crate::load_file::LoadFile;
use crate::load_refused::LoadRefused;
use crate::records::{fields_of, next_record};
use crate::row::{do_calls, load_record};
use crate::stop::Stop;
use csv::{ByteRecord, Reader, ReaderBuilder};
use gdi_kinds::{Call, CallList, NoMemory, Txn};
use map_graph::MapGraph;

/// The transaction that a load file is. Its calls are done on `graph`, so that it is the graph behind them.
///
/// `Bad` tells the first wrong record; `graph` is then only to be dropped, and so it is after `NoMemory`.
pub fn load_txn(file: LoadFile, bytes: &[u8], graph: &mut MapGraph) -> Result<Txn, LoadRefused>
    requires { IsWellFormed graph.old.graph }
    ensures shape { graph.new.shape ≡ graph.old.shape }
    ensures loads { MatchResult result (Loads file bytes.now graph.old) (TellsWrong file bytes.now graph.old) }
    ensures graph { IfOk result (λ txn. graph.new.graph ≡ graph_after_txn graph.old.shape graph.old.graph txn) }
    ensures well_formed { OnOk result (IsWellFormed graph.new.graph) }
{
    if !has_paired_quotes(bytes) {
        return Err(bad_file(LoadFault::Quotes));
    }
    let alloc = graph.alloc();
    let mut reader = ReaderBuilder::new()
        .has_headers(false)
        .flexible(true)
        .from_reader(alloc, bytes);
    let mut record = ByteRecord::new(alloc);
    if !next_record(&mut reader, &mut record)? {
        return Err(bad_file(LoadFault::Header));
    }
    let Some(header) = header_of(file, fields_of(alloc, &record)?.as_slice(), graph)? else {
        return Err(bad_file(LoadFault::Header));
    };
    let mut calls = new_types(&header, graph)?;
    if !do_calls(graph, calls.as_slice())? {
        return Err(bad_file(LoadFault::TooLarge));
    }
    load_records(&header, reader, record, graph, &mut calls)?;
    Ok(Txn {
        whole: false,
        calls,
        aborts: false,
    })
}

// Does the calls of the records behind the header, and puts them behind `calls`.
fn load_records(
    header: &Header,
    mut reader: Reader<&[u8]>,
    mut fields_read: ByteRecord,
    graph: &mut MapGraph,
    calls: &mut CallList,
) -> Result<(), LoadRefused>
    requires plain { IsPlain reader }
    requires well_formed { IsWellFormed graph.old.graph }
    ensures shape { graph.new.shape ≡ graph.old.shape }
    ensures well_formed { OnOk result (IsWellFormed graph.new.graph) }
    ensures loads { (bytes : List ℕ) (first : Fields) → HasRead bytes (first ∷ []) reader.entry
        → MatchResult result (λ _. LoadsBehind bytes first header.now graph.old calls.old calls.new graph.new) (TellsBehind bytes first header.now graph.old) }
{
    let alloc = graph.alloc();
    for row in 1..u64::MAX {
        if !next_record(&mut reader, &mut fields_read)? {
            return Ok(());
        }
        let fields = fields_of(alloc, &fields_read)?;
        if let Err(stop) = load_record(header, fields.as_slice(), graph, calls) {
            return Err(refused_at(row, stop));
        }
    }
    // No memory holds so many records.
    Err(LoadRefused::NoMemory)
}

fn refused_at(row: u64, stop: Stop) -> LoadRefused
    ensures { result ≡ refused_at row stop }
{
    match stop {
        Stop::Bad(kind) => LoadRefused::Bad { row, kind },
        Stop::NoMemory => LoadRefused::NoMemory,
    }
}

fn bad_file(kind: LoadFault) -> LoadRefused
    ensures { result ≡ refused.Bad 0 kind }
{
    LoadRefused::Bad { row: 0, kind }
}

fn has_paired_quotes(bytes: &[u8]) -> bool
    ensures { IsTrue result ↔ HasPairedQuotes bytes.now }
{
    bytes.iter().filter(|byte| **byte == b'"').count() % 2 == 0
}

// A call for each column whose type isn't there yet.
fn new_types(header: &Header, graph: &MapGraph) -> Result<CallList, NoMemory>
    ensures { IfOk result (λ calls. calls ≡ new_types graph.now.graph header.now.columns) }
{
    let mut calls = CallList::new(graph.alloc());
    for column in header.columns.as_slice() {
        if graph.prop_type(&column.name).is_none() {
            calls.push(Call::NewType {
                name: column.name,
                kind: column.kind,
                many: column.many,
            })?;
        }
    }
    Ok(calls)
}
