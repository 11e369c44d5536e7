use gdi_kinds::Reply;

/// What a line of output says.
#[derive(Debug, Drop)]
pub(crate) enum Said {
    /// A transaction ended, and its replies follow.
    Head(Head),
    Reply(Reply),
    /// The number of entries.
    Writes(u64),
}

/// The line of an outcome.
#[derive(Clone, Copy, Debug, PartialEq, Eq)]
pub(crate) struct Head {
    pub(crate) section: u64,
    pub(crate) txn: u64,
    pub(crate) ending: Ending,
}

/// How a transaction ended, its replies apart.
#[derive(Clone, Copy, Debug, PartialEq, Eq)]
pub(crate) enum Ending {
    /// It is this entry of the history.
    Wrote(u64),
    /// It read the graph after so many entries.
    Read(u64),
    Aborted,
    Full { rank: u16, place: u64 },
}
