/// What a rank wants of a lock word or of the gate.
#[derive(Clone, Copy, Debug, PartialEq, Eq)]
pub enum Want {
    /// To read an object beside other readers.
    Share,
    /// To have an object alone.
    Mark,
    /// To have an object alone that it shares already.
    Rise,
    /// A place in the gate beside other writers.
    Writer,
    /// A place in the gate beside others that look at the whole graph.
    Whole,
}
