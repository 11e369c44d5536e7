/// Which of the two load files.
#[derive(Clone, Copy, Debug, PartialEq, Eq)]
pub enum LoadFile {
    Vertices,
    Edges,
}
