use crate::Load;
use gdi_kinds::Script;

/// What texts are: a load, and a script that is run on the graph behind it.
#[derive(Debug, Drop)]
pub struct Workload {
    pub load: Load,
    pub script: Script,
}
