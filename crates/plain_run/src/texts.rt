/// The texts that a run reads.
#[derive(Clone, Copy, Debug)]
pub struct Texts<'a> {
    /// The load file of vertices, where one is given.
    pub vertices: Option<&'a [u8]>,
    /// The load file of edges, where one is given.
    pub edges: Option<&'a [u8]>,
    pub script: &'a [u8],
}
