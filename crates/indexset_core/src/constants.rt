//! The default node size.

/// The default maximum node size, in items.
pub const DEFAULT_INNER_SIZE: usize = 1024;

/// Half the default node size: the length of each half of a full node that is halved, in items.
pub const DEFAULT_CUTOFF: usize = 512;
