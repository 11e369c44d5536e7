ghost use Rattle.std.specs.Prelude.{◌≡◌};

use gdi_kinds::{Duplicate, Kind, Name, NoMemory};
use std::alloc::Global;
use std::marker::Model;

/// A property type as the plain graph holds it.
#[derive(Debug, Drop)]
pub struct HeldType {
    name: Name,
    kind: Kind,
    many: bool,
}

impl Model for HeldType {
    ghost use Rattle.graph_model.specs.Graph.{PropType};

    ghost Value = { PropType };

    ghost view = { λ held. record { name = held.name; kind = held.kind; many = held.many } };
}

impl HeldType {
    pub fn new(name: Name, kind: Kind, many: bool) -> HeldType
        ensures { result ≡ (record { name = name; kind = kind; many = many }) }
    {
        HeldType { name, kind, many }
    }

    pub fn name(&self) -> &Name
        ensures { result.now ≡ self.now.name }
    {
        &self.name
    }

    pub fn kind(&self) -> Kind
        ensures { result ≡ self.now.kind }
    {
        self.kind
    }

    /// Whether a property of this type may have more than one value.
    pub fn many(&self) -> bool
        ensures { result ≡ self.now.many }
    {
        self.many
    }
}

impl Duplicate for HeldType {
    fn copy(&self, _alloc: Global) -> Result<HeldType, NoMemory> {
        Ok(HeldType {
            name: self.name,
            kind: self.kind,
            many: self.many,
        })
    }
}
