ghost use Rattle.std.specs.Prelude.{◌≡◌};
ghost use Rattle.gdi_kinds.specs.Calls.{is_writing_call, is_whole_call};

use crate::{Duplicate, Kind, Name, NoMemory, Test, Value};
use std::alloc::Global;

/// Which edges of a vertex are meant.
#[derive(Clone, Copy, Debug, PartialEq, Eq)]
pub enum Dir {
    /// The directed ones from it.
    Outward,
    /// The directed ones to it.
    Inward,
    /// The undirected ones.
    Undirected,
    /// All of these.
    Either,
}

/// A call on the graph. The calls from `Hood` on are the whole-graph calls.
///
/// Identifiers and ordinals are any numbers of 64 bits. An edge is named by its source and its ordinal there.
#[derive(Debug, Drop)]
pub enum Call {
    NewLabel {
        name: Name,
    },
    /// A marked type, one that may have `many`, keeps a list of values; any other keeps one value.
    NewType {
        name: Name,
        kind: Kind,
        many: bool,
    },
    Vertex {
        id: u64,
    },
    Has {
        id: u64,
    },
    DropVertex {
        id: u64,
    },
    Tag {
        id: u64,
        label: Name,
    },
    Untag {
        id: u64,
        label: Name,
    },
    Tags {
        id: u64,
    },
    Set {
        id: u64,
        prop: Name,
        value: Value,
    },
    /// Puts a value behind those that are there.
    Add {
        id: u64,
        prop: Name,
        value: Value,
    },
    Get {
        id: u64,
        prop: Name,
    },
    Unset {
        id: u64,
        prop: Name,
    },
    Props {
        id: u64,
    },
    Edge {
        source: u64,
        target: u64,
        label: Option<Name>,
    },
    /// An undirected edge. It has its ordinal at its source, and is walked both ways.
    UEdge {
        source: u64,
        target: u64,
        label: Option<Name>,
    },
    Cut {
        source: u64,
        ordinal: u64,
    },
    Target {
        source: u64,
        ordinal: u64,
    },
    ETag {
        source: u64,
        ordinal: u64,
        label: Name,
    },
    EUntag {
        source: u64,
        ordinal: u64,
        label: Name,
    },
    ETags {
        source: u64,
        ordinal: u64,
    },
    ESet {
        source: u64,
        ordinal: u64,
        prop: Name,
        value: Value,
    },
    EAdd {
        source: u64,
        ordinal: u64,
        prop: Name,
        value: Value,
    },
    EGet {
        source: u64,
        ordinal: u64,
        prop: Name,
    },
    EUnset {
        source: u64,
        ordinal: u64,
        prop: Name,
    },
    EProps {
        source: u64,
        ordinal: u64,
    },
    Edges {
        id: u64,
        dir: Dir,
        test: Option<Test>,
    },
    Near {
        id: u64,
        dir: Dir,
    },
    Degree {
        id: u64,
        dir: Dir,
    },
    Find {
        label: Name,
        test: Option<Test>,
    },
    Hood {
        id: u64,
        depth: u64,
    },
    Levels {
        id: u64,
    },
    Parts,
    Scan {
        label: Option<Name>,
        test: Option<Test>,
    },
    Vertices,
    Arcs,
}

// The copy of a call, variant by variant: in each the fields that are `Copy`, and after `;` one that takes memory.
macro_rules! copy_of {
    ($call:expr, $alloc:expr; $($variant:ident { $($plain:ident),* $(; $held:ident)? })*) => {
        match $call {
            $(Call::$variant { $($plain,)* $($held,)? } => Call::$variant {
                $($plain: *$plain,)*
                $($held: $held.copy($alloc)?,)?
            },)*
        }
    };
}

impl Call {
    /// Whether it is one of the calls that may change the graph.
    pub fn is_writing(&self) -> bool
        ensures { result ≡ is_writing_call self.now }
    {
        match self {
            Call::NewLabel { .. }
            | Call::NewType { .. }
            | Call::Vertex { .. }
            | Call::DropVertex { .. }
            | Call::Tag { .. }
            | Call::Untag { .. }
            | Call::Set { .. }
            | Call::Add { .. }
            | Call::Unset { .. }
            | Call::Edge { .. }
            | Call::UEdge { .. }
            | Call::Cut { .. }
            | Call::ETag { .. }
            | Call::EUntag { .. }
            | Call::ESet { .. }
            | Call::EAdd { .. }
            | Call::EUnset { .. } => true,
            _ => false,
        }
    }

    /// Whether it is a whole-graph call.
    pub fn is_whole(&self) -> bool
        ensures { result ≡ is_whole_call self.now }
    {
        match self {
            Call::Hood { .. }
            | Call::Levels { .. }
            | Call::Parts
            | Call::Scan { .. }
            | Call::Vertices
            | Call::Arcs => true,
            _ => false,
        }
    }
}

impl Duplicate for Call {
    fn copy(&self, alloc: Global) -> Result<Call, NoMemory> {
        Ok(copy_of!(self, alloc;
            NewLabel { name }
            NewType { name, kind, many }
            Vertex { id }
            Has { id }
            DropVertex { id }
            Tag { id, label }
            Untag { id, label }
            Tags { id }
            Set { id, prop; value }
            Add { id, prop; value }
            Get { id, prop }
            Unset { id, prop }
            Props { id }
            Edge { source, target, label }
            UEdge { source, target, label }
            Cut { source, ordinal }
            Target { source, ordinal }
            ETag { source, ordinal, label }
            EUntag { source, ordinal, label }
            ETags { source, ordinal }
            ESet { source, ordinal, prop; value }
            EAdd { source, ordinal, prop; value }
            EGet { source, ordinal, prop }
            EUnset { source, ordinal, prop }
            EProps { source, ordinal }
            Edges { id, dir; test }
            Near { id, dir }
            Degree { id, dir }
            Find { label; test }
            Hood { id, depth }
            Levels { id }
            Parts {}
            Scan { label; test }
            Vertices {}
            Arcs {}
        ))
    }
}
