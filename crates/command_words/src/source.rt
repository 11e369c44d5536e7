use rma_layout::Geometry;

/// Where a graph comes from: the names of its load files, where they are given, and the geometry of its window.
#[derive(Debug, Drop)]
pub struct Source<'a> {
    pub vertices: Option<&'a str>,
    pub edges: Option<&'a str>,
    pub geometry: Geometry,
}
