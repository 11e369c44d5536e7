ghost use Rattle.std.specs.Prelude.{◌≡◌, ◌||◌, false, not, IfOk, OnOk, is_some, if◌then◌else◌};
ghost use Rattle.gdi_kinds.specs.Calls.{is_writing};
ghost use Rattle.graph_model.specs.Capacity.{full_rank};
ghost use Rattle.graph_model.specs.Transactions.{graph_after_txn, replies_to};
ghost use Rattle.plain_graph.specs.Ending.{ended_of};
ghost use Rattle.plain_graph.specs.Used.{IsKept};
ghost use Rattle.plain_graph.specs.Trials.{Tells};

use crate::Ended;
use crate::capacity::{count_done, short_rank};
use crate::rooms::Rooms;
use crate::trial::{Trial, try_calls};
use gdi_kinds::{ReplyList, Txn};
use map_graph::{MapGraph, ModelRefused};
use rma_layout::Geometry;
use std::alloc::Global;

/// Does a transaction on a graph, whatever blocks there are, and counts the blocks in use.
pub(crate) fn run_on(
    map: &mut MapGraph,
    used: &mut Rooms,
    alloc: Global,
    geometry: &Geometry,
    txn: &Txn,
) -> Result<ReplyList, ModelRefused>
    requires kept { IsKept map.old used.old }
    requires shape { geometry.now ≡ map.old.shape }
    ensures shape { map.new.shape ≡ map.old.shape }
    ensures replies { IfOk result (λ replies. replies ≡ replies_to map.old.shape map.old.graph txn.now) }
    ensures graph { OnOk result (map.new.graph ≡ graph_after_txn map.old.shape map.old.graph txn.now) }
    ensures kept { OnOk result (IsKept map.new used.new) }
{
    if leaves(txn) {
        let replies = map.run(txn)?;
        return Ok(replies);
    }
    geometry.keeps_ranges();
    let trial = try_calls(alloc, *geometry, map, txn.calls.as_slice())?;
    finish(map, used, geometry, txn, &trial)
}

/// Does a transaction on a graph and counts the blocks in use; or, where a rank has too few blocks for it, tells that rank
/// and leaves both.
pub(crate) fn execute_on(
    map: &mut MapGraph,
    used: &mut Rooms,
    alloc: Global,
    geometry: &Geometry,
    txn: &Txn,
) -> Result<Ended, ModelRefused>
    requires kept { IsKept map.old used.old }
    requires shape { geometry.now ≡ map.old.shape }
    ensures shape { map.new.shape ≡ map.old.shape }
    ensures ended { IfOk result (λ ended. ended ≡ ended_of (full_rank map.old.shape map.old.graph txn.now) (replies_to map.old.shape map.old.graph txn.now)) }
    ensures graph { OnOk result (map.new.graph ≡ (if is_some (full_rank map.old.shape map.old.graph txn.now) then map.old.graph else graph_after_txn map.old.shape map.old.graph txn.now)) }
    ensures kept { OnOk result (IsKept map.new used.new) }
{
    if leaves(txn) {
        let replies = map.run(txn)?;
        return Ok(Ended::Done(replies));
    }
    geometry.keeps_ranges();
    let trial = try_calls(alloc, *geometry, map, txn.calls.as_slice())?;
    if let Some(rank) = short_rank(used, geometry, &trial)? {
        return Ok(Ended::Full(rank));
    }
    let replies = finish(map, used, geometry, txn, &trial)?;
    Ok(Ended::Done(replies))
}

/// The rank that has too few blocks for a transaction, if one has. The graph stays.
pub(crate) fn full_on(
    map: &mut MapGraph,
    used: &Rooms,
    alloc: Global,
    geometry: &Geometry,
    txn: &Txn,
) -> Result<Option<u16>, ModelRefused>
    requires kept { IsKept map.old used.now }
    requires shape { geometry.now ≡ map.old.shape }
    ensures shape { map.new.shape ≡ map.old.shape }
    ensures full { IfOk result (λ full. full ≡ full_rank map.old.shape map.old.graph txn.now) }
    ensures graph { OnOk result (map.new.graph ≡ map.old.graph) }
{
    if leaves(txn) {
        return Ok(None);
    }
    geometry.keeps_ranges();
    let trial = try_calls(alloc, *geometry, map, txn.calls.as_slice())?;
    Ok(short_rank(used, geometry, &trial)?)
}

// Does a transaction that ends and was tried.
fn finish(
    map: &mut MapGraph,
    used: &mut Rooms,
    geometry: &Geometry,
    txn: &Txn,
    trial: &Trial,
) -> Result<ReplyList, ModelRefused>
    requires kept { IsKept map.old used.old }
    requires shape { geometry.now ≡ map.old.shape }
    requires ends { txn.now.aborts ≡ false }
    requires tried { Tells map.old.shape map.old.graph txn.now.calls trial.now }
    ensures shape { map.new.shape ≡ map.old.shape }
    ensures replies { IfOk result (λ replies. replies ≡ replies_to map.old.shape map.old.graph txn.now) }
    ensures graph { OnOk result (map.new.graph ≡ graph_after_txn map.old.shape map.old.graph txn.now) }
    ensures kept { OnOk result (IsKept map.new used.new) }
{
    let replies = map.run(txn)?;
    count_done(used, geometry, trial.touched.as_slice())?;
    Ok(replies)
}

// Whether a transaction leaves the graph whatever it is: it aborts, or writes nothing.
fn leaves(txn: &Txn) -> bool
    ensures { result ≡ (txn.now.aborts || not (is_writing txn.now)) }
{
    txn.aborts || !txn.is_writing()
}
