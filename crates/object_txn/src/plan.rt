use object_moves::Blocks;
use rma_layout::DPtr;

/// What a written object is written into: the blocks of its chain, so many as `kept` says, and behind them those that were
/// taken for it. The new words take the first of them, so many as `used` says.
#[derive(Drop)]
pub(crate) struct Plan {
    pub at: DPtr,
    pub blocks: Blocks,
    pub kept: usize,
    pub used: u64,
}
