//! A range of positions of a spine, for an iterator that edits it.

/// The positions that an iterator has not visited yet, and the node that it visited last.
#[derive(Clone, Copy, Debug, PartialEq, Eq)]
pub struct ExtractRange {
    /// The first position.
    pub front: usize,
    /// The position past the last one.
    pub back: usize,
    /// The index of the node.
    pub node: usize,
    /// How many items are before that node.
    pub start: usize,
}
