//! Insertion, removal and block moves of items, in lists that have capacity for them.
ghost use Rattle.std.specs.Prelude.{◌≡◌, ◌+◌, ◌-◌, ◌<◌, ◌≤◌, ◌++◌, length, take, drop};
ghost use Rattle.std.specs.Prelude.{insert, remove, slice_index_or, vec_len, vec_capacity};

use std::mem;

/// Inserts an item at an index of a list that has capacity for it.
pub fn insert_item<T>(items: &mut Vec<T>, index: usize, item: T)
    requires within { index ≤ length items.old.items }
    requires room { vec_len items.old < vec_capacity items.old }
    ensures items { items.new.items ≡ insert items.old.items index item }
    ensures capacity { vec_capacity items.new ≡ vec_capacity items.old }
{
    items.push_reserved(item);
    items.as_mut_slice()[index..].rotate_right(1);
}

// The number of bytes that one `memmove` of `rotate_left` moves to the front; it moves more by a
// loop.
const PART_BYTES: usize = 2048;

/// Removes the item at an index and returns it.
pub fn remove_item<T>(items: &mut Vec<T>, index: usize) -> T
    requires { index < length items.old.items }
    ensures value { result ≡ slice_index_or items.old.items index result }
    ensures items { items.new.items ≡ remove items.old.items index }
    ensures capacity { vec_capacity items.new ≡ vec_capacity items.old }
{
    let last = items.len() - 1;
    let part = (PART_BYTES / mem::size_of_val(&items[..1]).max(1)).max(1);
    let mut at = index;
    while at < last {
        let to = at + (last - at).min(part);
        items.as_mut_slice()[at..to + 1].rotate_left(1);
        at = to;
    }
    items.take_last()
}

/// Moves the items from an index on to the end of another list that has capacity for them.
pub fn move_tail<T: Drop>(items: &mut Vec<T>, index: usize, other: &mut Vec<T>)
    requires within { index ≤ length items.old.items }
    requires room { vec_len other.old + (length items.old.items - index) ≤ vec_capacity other.old }
    ensures left { items.new.items ≡ take index items.old.items }
    ensures moved { other.new.items ≡ other.old.items ++ drop index items.old.items }
    ensures capacity { vec_capacity items.new ≡ vec_capacity items.old }
    ensures other_capacity { vec_capacity other.new ≡ vec_capacity other.old }
{
    for item in items.drain(index..) {
        other.push_reserved(item);
    }
}

/// Moves the first items of a list to the end of another list that has capacity for them.
pub fn move_front<T: Drop>(items: &mut Vec<T>, count: usize, other: &mut Vec<T>)
    requires within { count ≤ length items.old.items }
    requires room { vec_len other.old + count ≤ vec_capacity other.old }
    ensures left { items.new.items ≡ drop count items.old.items }
    ensures moved { other.new.items ≡ other.old.items ++ take count items.old.items }
    ensures capacity { vec_capacity items.new ≡ vec_capacity items.old }
    ensures other_capacity { vec_capacity other.old ≤ vec_capacity other.new }
{
    if count == items.len() {
        // The capacity suffices, and all items move at once.
        let _ = other.append(items);
        return;
    }
    for item in items.drain(..count) {
        other.push_reserved(item);
    }
}
