ghost use Rattle.std.specs.Prelude.{◌≡◌, length};
ghost use Rattle.bulk_load.specs.Fields.{lead_sorts};
ghost use Rattle.bulk_load.specs.Headers.{lead_fields};

/// The columns in front of those of the properties.
#[derive(Clone, Copy, Debug, PartialEq, Eq)]
pub(crate) enum Lead {
    /// An identifier and labels.
    Vertices,
    /// Two ends and a label.
    Edges,
    /// The same, and whether the edge is undirected.
    MarkedEdges,
}

impl Lead {
    /// How many columns they are.
    pub(crate) fn width(self) -> usize
        ensures heads { result ≡ length (lead_fields self) }
        ensures fields { result ≡ length (lead_sorts self) }
    {
        match self {
            Lead::Vertices => 2,
            Lead::Edges => 3,
            Lead::MarkedEdges => 4,
        }
    }
}
