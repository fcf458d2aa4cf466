//! Early events: those that came before the awaited one.

ghost use Rattle.std.specs.Prelude.{◌≡◌, ◌≢◌, ◌∷◌, [], IfErr, IfOk, IfSome};
ghost use Rattle.std.specs.Prelude.{None, OnErr, OnOk, Some, map, slice_get};
ghost use Rattle.std.specs.Option.{option_map, option_map_or};
ghost use Rattle.indexset_bench.specs.PairText.{event_text};
ghost use Rattle.indexset_core.specs.Pairs.{pair};
ghost use Rattle.indexset_follow.specs.Early.{consecutive, first_number, with_early};

use crate::event::Event;
use indexset_bench::key::Key;
use indexset_lines::RunFault;
use indexset_map::BTreeMap;
use indexset_wire::event::write_event;
use std::alloc::Global;
use std::marker::Model;

/// Early events, by their numbers.
#[derive(Drop)]
pub struct Early<T: Key> {
    // `None` until the first event.
    events: Option<BTreeMap<u64, Event<T>>>,
}

impl<T: Key> Model for Early<T> {
    ghost use Rattle.std.specs.Prelude.{[]};
    ghost use Rattle.std.specs.Option.{option_map_or};
    ghost use Rattle.indexset_follow.specs.Early.{EarlyEvents};

    ghost Value = { EarlyEvents T };

    ghost view = { λ early. option_map_or (λ events. events.pairs) early.events [] };
}

impl<T: Key> Early<T> {
    /// Returns an empty collection.
    pub fn new() -> Early<T>
        ensures { result ≡ [] }
    {
        Early { events: None }
    }

    /// Inserts an event, or replaces that of the same number.
    ///
    /// # Errors
    ///
    /// `Memory`. A failed call changes nothing.
    pub fn insert(&mut self, alloc: Global, event: Event<T>) -> Result<(), RunFault>
        ensures held { OnOk result (self.new ≡ with_early self.old event) }
        ensures fault { IfErr result (λ fault. fault ≡ RunFault.Memory) }
        ensures unchanged { OnErr result (self.new ≡ self.old) }
    {
        let number = event.id().inner();
        if let Some(events) = &mut self.events {
            events.insert(number, event)?;
            return Ok(());
        }
        let mut events = BTreeMap::new(alloc)?;
        events.insert(number, event)?;
        self.events = Some(events);
        Ok(())
    }

    /// Returns the least number of an event, or `number` if there is none.
    pub fn first_number(&self, number: u64) -> u64
        ensures { result ≡ first_number self.now number }
    {
        match &self.events {
            Some(events) => match events.first_key_value() {
                Some((first, _)) => *first,
                None => number,
            },
            None => number,
        }
    }

    /// Returns the lines of the first events, as long as their numbers are consecutive from
    /// `number` on.
    pub fn lines_from(&self, alloc: Global, number: u64) -> Result<Vec<Vec<u8>>, RunFault>
        ensures lines { IfOk result (λ lines. map (λ line. line.items) lines.items
            ≡ map (event_text T.texts) (consecutive number self.now)) }
        ensures fault { IfErr result (λ fault. fault ≡ RunFault.Memory) }
    {
        match &self.events {
            Some(events) => consecutive_lines(alloc, events, number),
            None => Ok(Vec::new(alloc)),
        }
    }

    /// Removes the first event and returns it, if this is its number.
    pub fn pop(&mut self, number: u64) -> Option<Event<T>>
        ensures first { IfSome result (λ event. self.old ≡ pair number event ∷ self.new) }
        ensures other { result ≡ None
            → option_map (λ p. p.key) (slice_get self.old 0) ≢ Some number }
        ensures unchanged { result ≡ None → self.new ≡ self.old }
    {
        let events = self.events.as_mut()?;
        let (first, _) = events.first_key_value()?;
        if *first != number {
            return None;
        }
        let (_, event) = events.pop_first()?;
        Some(event)
    }
}

/// Returns the lines of the first events, as long as their numbers are consecutive from `number`
/// on.
fn consecutive_lines<T: Key>(
    alloc: Global,
    events: &BTreeMap<u64, Event<T>>,
    number: u64,
) -> Result<Vec<Vec<u8>>, RunFault>
    ensures lines { IfOk result (λ lines. map (λ line. line.items) lines.items
        ≡ map (event_text T.texts) (consecutive number events.now.pairs)) }
    ensures fault { IfErr result (λ fault. fault ≡ RunFault.Memory) }
{
    let mut lines = Vec::new(alloc);
    for (event_number, event) in events.iter() {
        if event_number.checked_sub(number) != Some(lines.len() as u64) {
            break;
        }
        let line = event_line(alloc, event)?;
        lines.push(line).map_err(|_| RunFault::Memory)?;
    }
    Ok(lines)
}

/// Returns the line of an event.
fn event_line<T: Key>(alloc: Global, event: &Event<T>) -> Result<Vec<u8>, RunFault>
    ensures line { IfOk result (λ line. line.items ≡ event_text T.texts event.now) }
    ensures fault { IfErr result (λ fault. fault ≡ RunFault.Memory) }
{
    let mut line = Vec::new(alloc);
    write_event(&mut line, event).map_err(|_| RunFault::Memory)?;
    Ok(line)
}
