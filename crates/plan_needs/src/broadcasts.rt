//! Broadcasts of blocks, and why they are there.

use plan_why::Failure;

/// The block has a broadcast on the condition, which is counted. Blocks are numbered from 0,
/// conditions from 1.
#[derive(Clone, Copy, Debug)]
pub struct BlockBroadcast {
    pub block: u32,
    pub condition: u32,
}

/// A broadcast of a block, and where one signal is not enough in its place, if that was found.
#[derive(Debug, Drop)]
pub struct BroadcastReason {
    pub broadcast: BlockBroadcast,
    pub failure: Option<Failure>,
}
