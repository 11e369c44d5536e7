/// A call of a shelf or a sink failed. Its count of faults rose then.
#[derive(Clone, Copy, Debug, PartialEq, Eq)]
pub struct Failed;
