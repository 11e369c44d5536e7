use gdi_kinds::{Name, NameList};

/// What the fields in front of the properties say.
#[derive(Debug, Drop)]
pub(crate) enum Subject {
    Vertex {
        id: u64,
        labels: NameList,
    },
    Edge {
        undirected: bool,
        source: u64,
        target: u64,
        label: Option<Name>,
    },
}
