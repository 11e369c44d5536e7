use gdi_kinds::Txn;

/// A load: the transaction of each load file that is given. The vertices' comes before the edges'.
#[derive(Debug, Drop)]
pub struct Load {
    pub vertices: Option<Txn>,
    pub edges: Option<Txn>,
}
