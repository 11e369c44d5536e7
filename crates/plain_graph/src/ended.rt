use gdi_kinds::ReplyList;

/// How a transaction ended that ran alone.
#[derive(Debug, Drop)]
pub enum Ended {
    /// With its replies: it is done, or it aborted and left the graph.
    Done(ReplyList),
    /// This rank has too few blocks for it. The graph stays.
    Full(u16),
}
