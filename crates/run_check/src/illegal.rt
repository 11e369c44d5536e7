use crate::{Clause, Place};

/// Why a run isn't legal: the least clause that it doesn't keep, and the first outcome that fails in it.
#[derive(Clone, Copy, Debug, PartialEq, Eq)]
pub struct Illegal {
    pub clause: Clause,
    pub place: Place,
}
