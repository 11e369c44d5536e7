pub(crate) mod has_vertex;
pub(crate) mod vertex_degree;
pub(crate) mod vertex_get;
pub(crate) mod vertex_near;
pub(crate) mod vertex_props;
pub(crate) mod vertex_tags;
