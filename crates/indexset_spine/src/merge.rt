//! The merge of two ascending lists: the items of the second replace equal ones of the first.
ghost use Rattle.std.specs.Prelude.{◌≡◌, ◌+◌, ◌-◌, ◌<◌, ◌≤◌, [], ◌++◌, IfOk};
ghost use Rattle.std.specs.Prelude.{OnOk, IfErr, OnErr, MatchOption, length};
ghost use Rattle.std.specs.Prelude.{take, drop, slice_get, vec_len, vec_capacity};
ghost use Rattle.std.specs.List.{All, HoldsAt, fold};
ghost use Rattle.std.specs.Option.{ForSome};
ghost use Rattle.std.specs.declared.cmp.Ordering.TheVariants.{Less};
ghost use Rattle.indexset_core.specs.Order.{IsAscending, put};

use indexset_core::moves::move_front;
use indexset_core::probe::ByItem;
use indexset_core::refusal::Refusal;
use indexset_core::search;
use std::cmp::Ordering;

/// Returns how many of the first `most` items of an ascending list are below the last of another.
pub(crate) fn count_below_last<T: Ord>(items: &[T], from: &[T], most: usize) -> usize
    requires { IsAscending T.cmp from.now }
    ensures below { All (λ x. HoldsAt (λ l. T.cmp x l ≡ Less) items.now (length items.now - 1))
        (take result from.now) }
    ensures most { result ≤ most }
    ensures within { result ≤ length from.now }
{
    match items.last() {
        Some(last) => {
            let front = &from[..most.min(from.len())];
            search::first_not_less(front, &mut ByItem::new(last))
        }
        None => 0,
    }
}

/// Merges the first items of an ascending list into another. A failed call changes neither.
pub(crate) fn merge_first<T: Ord + Drop>(
    items: &mut Vec<T>,
    from: &mut Vec<T>,
    count: usize,
) -> Result<(), Refusal>
    requires order { IsAscending T.cmp items.old.items }
    requires from_order { IsAscending T.cmp from.old.items }
    requires within { count ≤ length from.old.items }

    // Contents.
    ensures merged { OnOk result (items.new.items
        ≡ fold (put T.cmp) items.old.items (take count from.old.items)) }
    ensures rest { OnOk result (from.new.items ≡ drop count from.old.items) }

    // Failure.
    ensures refusal { IfErr result (λ e. e ≡ Refusal.Memory) }
    ensures unchanged { OnErr result (items.new.items ≡ items.old.items) }
    ensures from_unchanged { OnErr result (from.new.items ≡ from.old.items) }
{
    let alloc = *items.allocator();
    items.reserve(count)?;
    let mut run = Vec::with_capacity(alloc, count)?;
    let mut merged = Vec::with_capacity(alloc, items.len() + count)?;
    move_front(from, count, &mut run);
    merge_back(items, &mut run, &mut merged);
    // The capacity suffices, and all items move at once.
    let _ = items.append(&mut merged);
    Ok(())
}

// Merges a run, and the items that are above its first item, into a third list. Of equal items it
// keeps those of the run.
fn merge_back<T: Ord + Drop>(items: &mut Vec<T>, run: &mut Vec<T>, merged: &mut Vec<T>)
    requires order { IsAscending T.cmp items.old.items }
    requires run_order { IsAscending T.cmp run.old.items }
    requires empty { merged.old.items ≡ [] }
    requires room { vec_len items.old + vec_len run.old ≤ vec_capacity merged.old }
    ensures merged { items.new.items ++ merged.new.items
        ≡ fold (put T.cmp) items.old.items run.old.items }
    ensures length_bound { vec_len items.new + vec_len merged.new
        ≤ vec_len items.old + vec_len run.old }
    ensures capacity { vec_capacity items.new ≡ vec_capacity items.old }
{
    while !run.is_empty() {
        match order_of_last(items.as_slice(), run.as_slice()) {
            Ordering::Less => merged.push_reserved(run.take_last()),
            Ordering::Greater => merged.push_reserved(items.take_last()),
            Ordering::Equal => {
                drop(items.take_last());
                merged.push_reserved(run.take_last());
            }
        }
    }
    merged.as_mut_slice().reverse();
}

// Returns how the last item compares with the last of a run: Less if there is no item.
fn order_of_last<T: Ord>(items: &[T], run: &[T]) -> Ordering
    ensures { ForSome (slice_get run.now (length run.now - 1))
        (λ b. MatchOption (slice_get items.now (length items.now - 1)) (result ≡ Less)
        (λ a. result ≡ T.cmp a b)) }
{
    match (items.last(), run.last()) {
        (Some(item), Some(next)) => item.cmp(next),
        _ => Ordering::Less,
    }
}
