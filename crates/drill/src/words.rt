ghost use Rattle.std.specs.Prelude.{◌≡◌};
ghost use Rattle.drill.specs.Drill.{local_txn, node, number};

use gdi_kinds::{CallList, Name, Txn};

/// The label of the even vertices.
pub(crate) fn node() -> Name
    ensures { result ≡ node }
{
    match Name::of(b"Node") {
        Some(name) => name,
        None => unreachable!(),
    }
}

/// The property that keeps a vertex' number.
pub(crate) fn number() -> Name
    ensures { result ≡ number }
{
    match Name::of(b"n") {
        Some(name) => name,
        None => unreachable!(),
    }
}

/// A transaction of these calls that asks for no whole graph and ends.
pub(crate) fn local(calls: CallList) -> Txn
    ensures { result ≡ local_txn calls }
{
    Txn {
        whole: false,
        calls,
        aborts: false,
    }
}
