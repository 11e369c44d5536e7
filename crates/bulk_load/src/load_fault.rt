ghost use Rattle.std.specs.Prelude.{◌≡◌};
ghost use Rattle.bulk_load.specs.Numbers.{number_of_fault};

/// What is wrong with a record of a load file.
#[derive(Clone, Copy, Debug, PartialEq, Eq)]
pub enum LoadFault {
    /// The number of quotes in the file is odd.
    Quotes,
    /// There is no record, or the first one is no header; or a type is there with another kind or mark.
    Header,
    /// The vertex is there already.
    VertexThere,
    /// The record has another number of fields than the header.
    FieldCount,
    /// An identifier is misspelled or doesn't fit 64 bits.
    Identifier,
    /// A label is no name, or stands twice in the record.
    Label,
    /// A property's field is no value of its kind, or the field of `:UNDIRECTED` is no truth value.
    Value,
    /// An end of the edge isn't there.
    NoEnd,
    /// A call of the record would make an object too large.
    TooLarge,
}

impl LoadFault {
    /// The number by which the fault is known outside, 1 to 9.
    pub fn number(self) -> u32
        ensures { result ≡ number_of_fault self }
    {
        match self {
            LoadFault::Quotes => 1,
            LoadFault::Header => 2,
            LoadFault::VertexThere => 3,
            LoadFault::FieldCount => 4,
            LoadFault::Identifier => 5,
            LoadFault::Label => 6,
            LoadFault::Value => 7,
            LoadFault::NoEnd => 8,
            LoadFault::TooLarge => 9,
        }
    }
}
