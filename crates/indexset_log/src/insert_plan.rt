//! Where an item is inserted.
ghost use Rattle.std.specs.Prelude.{◌≡◌, ◌+◌, cond, is_ok};
ghost use Rattle.indexset_log.specs.InsertPlan.{count_for, is_present};

/// Where an item is inserted: the target node, whether it is full and is halved first, whether the
/// item then belongs in the right half, and the offset in the node or the half: `Ok` for that of an
/// equal item, `Err` for a gap.
#[derive(Drop)]
pub(crate) struct InsertPlan {
    pub(crate) node: usize,
    pub(crate) full: bool,
    pub(crate) right: bool,
    pub(crate) at: Result<usize, usize>,
}

impl InsertPlan {
    /// Returns the number of events of a put there.
    pub(crate) fn count(&self) -> u64
        ensures { result ≡ cond self.now.full 1 0 + cond (is_ok self.now.at) 2 1 }
    {
        let halvings = if self.full { 1 } else { 0 };
        let puts = if self.at.is_ok() { 2 } else { 1 };
        halvings + puts
    }

    /// Returns the number of items that a put there adds.
    pub(crate) fn growth(&self) -> usize
        ensures { result ≡ cond (is_ok self.now.at) 0 1 }
    {
        if self.at.is_ok() { 0 } else { 1 }
    }
}

/// Returns the number of events of a put. An empty tree has no aim; its first put creates a node.
pub(crate) fn event_count(aim: &Option<InsertPlan>) -> u64
    ensures { result ≡ count_for aim.now }
{
    match aim {
        Some(aim) => aim.count(),
        None => 1,
    }
}

/// Returns whether an equal item is present.
pub(crate) fn finds_equal(aim: &Option<InsertPlan>) -> bool
    ensures { result ≡ is_present aim.now }
{
    match aim {
        Some(aim) => aim.at.is_ok(),
        None => false,
    }
}
