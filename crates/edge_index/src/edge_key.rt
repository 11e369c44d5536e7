ghost use Rattle.std.specs.Prelude.{◌≡◌};

use std::marker::Model;

/// What names an edge: its source and its ordinal there. These names go by source, and then by ordinal.
#[derive(Clone, Copy, Debug, PartialEq, Eq, PartialOrd, Ord)]
pub struct EdgeKey {
    source: u64,
    ordinal: u64,
}

impl Model for EdgeKey {
    ghost use Rattle.graph_model.specs.Graph.{EdgeKey as Key};

    ghost Value = { Key };

    ghost view = { λ key. record { source = key.source; ordinal = key.ordinal } };

    ghost inverse = { λ key. record { source = key.source; ordinal = key.ordinal } };
}

impl EdgeKey {
    pub fn new(source: u64, ordinal: u64) -> EdgeKey
        ensures { result ≡ (record { source = source; ordinal = ordinal }) }
    {
        EdgeKey { source, ordinal }
    }

    pub fn source(&self) -> u64
        ensures { result ≡ self.now.source }
    {
        self.source
    }

    pub fn ordinal(&self) -> u64
        ensures { result ≡ self.now.ordinal }
    {
        self.ordinal
    }
}
