//! A node list, edited and searched by spots, with an index of positions.
//!
//! [`spine::Spine`] is the list. A [`spot::Spot`] is a node and an offset in it. `locate_by` finds
//! the spot of a look-up key, `position` and `spot` convert between spots and positions, `insert`,
//! `remove`, `replace` and `split_off` edit at a spot, and `extract` and `retain_mut` remove the
//! items that a closure selects. [`indexset_index::fenwick::Fenwick`] is the index: the lengths of
//! the nodes, summed so that few reads, which are counted, find a position. [`iter::Iter`] and
//! [`into_iter::IntoIter`] iterate over the items from both ends. A spine has no order of its own:
//! the order is that of the comparator, and in `merge_from` that of the items.
#![tactic(auto)]

pub mod extract_range;
pub mod into_iter;
pub mod iter;
mod lengths;
mod locate;
mod merge;
pub mod spine;
pub mod spot;
