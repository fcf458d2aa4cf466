//! A node of fixed capacity.
ghost use Rattle.std.specs.Prelude.{◌≡◌, ◌+◌, ◌-◌, ◌≤◌, ◌++◌, length, take, drop, false};

use crate::node::NodeLike;
use crate::probe::Probe;
use crate::refusal::{Refusal, Refused};
use crate::search;
use arrayvec::ArrayVec;
use std::alloc::Global;
use std::marker::Model;
use std::ops::Bound;
use std::{mem, slice};

/// A node of at most `N` items, stored inline: it never allocates, and none of its calls fails.
///
/// A node of fewer than two items cannot be halved, so a tree needs an `N` of at least 2.
///
/// ```
/// # use indexset::base::array_node::ArrayNode;
/// let mut tree: set::BTreeSet<u64, ArrayNode<u64, 256>> =
///     set::BTreeSet::with_maximum_node_size(alloc, 256);
/// tree.insert(5)?;
/// assert!(rt; tree.contains(&5));
/// ```
#[derive(Drop)]
pub struct ArrayNode<T, const N: usize> {
    items: ArrayVec<T, N>,
}

impl<T, const N: usize> Model for ArrayNode<T, N> {
    ghost use Rattle.std.specs.Prelude.{◌≤◌, List, length};

    ghost Value = { List T };

    ghost view = { λ node. node.items.items };

    ghost invariant = { λ node. length node.items.items ≤ N };
}

impl<T: Ord + Default + Drop, const N: usize> NodeLike<T> for ArrayNode<T, N> {
    ghost list = { λ node. node };

    ghost room = { λ _. N };

    ghost most = { N };

    ghost allocates = { false };

    fn limit() -> usize {
        N
    }

    fn with_capacity(_alloc: Global, _capacity: usize) -> Result<Self, Refusal> {
        Ok(ArrayNode {
            items: ArrayVec::new(),
        })
    }

    fn len(&self) -> usize {
        self.items.len()
    }

    fn capacity(&self) -> usize {
        self.items.capacity()
    }

    fn get_ith(&self, index: usize) -> Option<&T> {
        self.items.as_slice().get(index)
    }

    fn min(&self) -> Option<&T> {
        self.items.as_slice().first()
    }

    fn max(&self) -> Option<&T> {
        self.items.as_slice().last()
    }

    fn need_to_split(&self, border: usize, _value: &T) -> bool {
        self.items.len() >= border
    }

    fn iter(&self) -> slice::Iter<'_, T> {
        self.items.as_slice().iter()
    }

    fn reserve_one(&mut self) -> Result<(), Refusal> {
        Ok(())
    }

    fn reserve(&mut self, _count: usize) -> Result<(), Refusal> {
        Ok(())
    }

    fn absorb(&mut self, next: Self) {
        let mut rest = next.items;
        move_tail(&mut rest, 0, &mut self.items);
    }

    fn insert_at(&mut self, index: usize, value: T) {
        self.items.insert(index, value);
    }

    fn remove_at(&mut self, index: usize) -> T {
        self.items.remove(index)
    }

    fn insert(&mut self, value: T) -> Result<(bool, usize), Refused<T>> {
        match search::find(self.items.as_slice(), &value) {
            Ok(index) => Ok((false, index)),
            Err(index) => {
                self.items.insert(index, value);
                Ok((true, index))
            }
        }
    }

    fn contains(&self, value: &T) -> bool {
        search::find(self.items.as_slice(), value).is_ok()
    }

    fn try_select(&self, value: &T) -> Option<usize> {
        search::find(self.items.as_slice(), value).ok()
    }

    fn rank(&self, bound: Bound<&T>, from_start: bool) -> Option<usize> {
        search::count_outside(self.items.as_slice(), bound, from_start).checked_sub(1)
    }

    fn delete(&mut self, value: &T) -> Option<(T, usize)> {
        match search::find(self.items.as_slice(), value) {
            Ok(index) => Some((self.items.remove(index), index)),
            Err(_) => None,
        }
    }

    fn replace(&mut self, index: usize, value: T) -> Option<T> {
        let item = self.items.get_mut(index)?;
        Some(mem::replace(item, value))
    }

    fn halve(&mut self) -> Result<Self, Refusal> {
        let half = self.items.len() / 2;
        let mut rest = ArrayVec::new();
        move_tail(&mut self.items, half, &mut rest);
        Ok(ArrayNode { items: rest })
    }

    fn first_not_less<P: Probe<T>>(&self, probe: &mut P) -> usize {
        search::first_not_less(self.items.as_slice(), probe)
    }

    fn first_greater<P: Probe<T>>(&self, probe: &mut P) -> usize {
        search::first_greater(self.items.as_slice(), probe)
    }
}

/// Moves the items from an index on to the end of another list that has capacity for them.
fn move_tail<T: Default + Drop, const N: usize>(
    items: &mut ArrayVec<T, N>,
    index: usize,
    other: &mut ArrayVec<T, N>,
)
    requires within { index ≤ length items.old.items }
    requires room { length other.old.items + (length items.old.items - index) ≤ N }
    ensures left { items.new.items ≡ take index items.old.items }
    ensures moved { other.new.items ≡ other.old.items ++ drop index items.old.items }
{
    for item in items.drain(index..) {
        other.push(item);
    }
}
