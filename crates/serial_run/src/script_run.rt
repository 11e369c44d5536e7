use gdi_kinds::Printed;
use plain_graph::PlainGraph;

/// What is left of a run of a script: what it prints, and the graph behind it.
#[derive(Debug, Drop)]
pub struct ScriptRun {
    pub printed: Printed,
    pub graph: PlainGraph,
}
