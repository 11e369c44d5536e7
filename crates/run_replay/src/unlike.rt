use run_check::Place;

/// Where a run isn't like the graphs of its history, if it isn't.
#[derive(Clone, Copy, Debug, PartialEq, Eq)]
pub struct Unlike {
    /// The first outcome whose replies aren't those of the graph at its place.
    pub replies: Option<Place>,
    /// The first that isn't refused for blocks exactly as the graph at its place says.
    pub room: Option<Place>,
}
