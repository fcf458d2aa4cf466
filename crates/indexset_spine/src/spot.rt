//! A spot in a spine.

/// A spot in a spine: a node and an offset in it, as a search returns them.
#[derive(Clone, Copy, Debug, PartialEq, Eq)]
pub struct Spot {
    /// The index of the node.
    pub node: usize,
    /// How many items of that node are before the spot.
    pub offset: usize,
    /// Whether the item at the spot compared Equal.
    pub found: bool,
}
