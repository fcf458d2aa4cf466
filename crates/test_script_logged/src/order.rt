//! Events that are delivered to a replica in any order, with one call.
ghost use Rattle.std.specs.Prelude.{◌<◌, ◌↔◌, IsTrue};
ghost use Rattle.std.specs.List.{All};

use crate::item::Item;
use crate::partial::Partial;
use indexset_core::refusal::Refusal;
use indexset_events::change::ChangeEvent;
use indexset_replica::Replica;
use std::alloc::Global;
use std::str::SplitWhitespace;
use test_script::script::Stop;

/// Reads a place from each remaining word.
fn read_places(alloc: Global, words: &mut SplitWhitespace<'_>) -> Result<Vec<usize>, Stop> {
    let mut places = Vec::new(alloc);
    for word in words {
        places.push(word.parse().map_err(|_| Stop::Word)?)?;
    }
    Ok(places)
}

/// Returns the text of places.
fn text_of(alloc: Global, places: &[usize]) -> Result<String, Stop> {
    let mut text = String::new(alloc);
    for place in places {
        write!(text, " {place}")?;
    }
    Ok(text)
}

/// Returns how many places of an order are used until `count` events from the number `next` on are
/// applied.
fn places_of<T: Item>(
    events: &[ChangeEvent<T>],
    order: &[usize],
    mut next: u64,
    count: usize,
) -> usize {
    let mut applied = 0usize;
    for (index, place) in order.iter().enumerate() {
        if applied == count {
            return index;
        }
        if events
            .get(*place)
            .is_some_and(|event| event.id().inner() == next)
        {
            next = next.saturating_add(1);
            applied = applied.saturating_add(1);
        }
    }
    order.len()
}

/// Returns the rest of an order after the events that the call has applied.
fn rest_of<'a, T: Item>(
    replica: &Replica<T>,
    events: &[ChangeEvent<T>],
    order: &'a [usize],
    partial: &Partial,
) -> &'a [usize] {
    let start = replica.next().saturating_sub(partial.count as u64);
    let done = places_of(events, order, start, partial.count);
    order.split_at(done.min(order.len())).1
}

/// Returns whether all places are less than a count.
fn are_below(places: &[usize], count: usize) -> bool
    ensures { IsTrue result ↔ All (λ place. place < count) places.now }
{
    places.iter().all(|place| *place < count)
}

/// Delivers the events at the places of the words, with one call.
pub fn deliver<T: Item>(
    alloc: Global,
    replica: &mut Replica<T>,
    events: &[ChangeEvent<T>],
    partial: &mut Partial,
    words: &mut SplitWhitespace<'_>,
) -> Result<(), Stop> {
    let places = read_places(alloc, words)?;
    partial.begin("deliver", text_of(alloc, places.as_slice())?.as_str())?;
    let order = rest_of(replica, events, places.as_slice(), partial);
    if !are_below(order, events.len()) {
        return Err(Stop::NoCall);
    }
    let before = replica.next();
    let followed = replica.follow(events, order);
    let applied = replica.next().saturating_sub(before);
    partial.count = partial.count.saturating_add(applied as usize);
    if followed == Err(Refusal::Memory) {
        return Err(Stop::Refused(Refusal::Memory));
    }
    partial.end(&mut String::new(alloc))?;
    Ok(followed?)
}

/// Applies the next awaited event in the order of the words. Returns whether there is one.
pub fn deliver_part<T: Item>(
    alloc: Global,
    replica: &mut Replica<T>,
    events: &[ChangeEvent<T>],
    partial: &mut Partial,
    words: &mut SplitWhitespace<'_>,
) -> Result<bool, Stop> {
    let places = read_places(alloc, words)?;
    let next = replica.next();
    let order = rest_of(replica, events, places.as_slice(), partial);
    let in_turn = order
        .iter()
        .filter_map(|place| events.get(*place))
        .find(|event| event.id().inner() == next);
    let Some(event) = in_turn else {
        return Ok(false);
    };
    replica.apply(event)?;
    partial.count = partial.count.saturating_add(1);
    Ok(true)
}
