use crate::Load;
use plain_graph::PlainGraph;

/// A load, and the graph behind it where each rank surely has room for each of its transactions.
#[derive(Debug, Drop)]
pub struct ReadyLoad {
    pub load: Load,
    pub graph: Option<PlainGraph>,
}
