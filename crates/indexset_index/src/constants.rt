//! The size of a block.

/// The number of neighbouring nodes whose lengths [`Blocks`](crate::blocks::Blocks) sums in one
/// block.
pub const NODES_PER_BLOCK: usize = 32;
