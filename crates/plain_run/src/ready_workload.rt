use crate::Workload;
use plain_graph::PlainGraph;

/// A load and a script, and the graph behind the load where each rank surely has room for each of its transactions.
#[derive(Debug, Drop)]
pub struct ReadyWorkload {
    pub workload: Workload,
    pub graph: Option<PlainGraph>,
}
