//! Events as words of a script: the number, the kind, the last item of the node, and the other
//! fields: `7 insert 5 4 0`, `7 remove 5 4 0`, `7 create 5`, `7 drop 5`, `7 split 5 2` or `7 merge
//! 5 9`.

use crate::item::{Item, Source};
use indexset_events::change::{ChangeEvent, Id};
use std::str::SplitWhitespace;
use test_script::script::{Stop, read, tell};

/// Writes events, each after a comma.
pub fn tell_events<T: Item>(answer: &mut String, events: &[ChangeEvent<T>]) -> Result<(), Stop> {
    for event in events {
        answer.push_str(",")?;
        tell(answer, event)?;
    }
    Ok(())
}

/// Reads an insert or remove event.
fn read_edit<T: Item>(
    source: &Source,
    is_insertion: bool,
    event_id: Id,
    max_value: T,
    words: &mut SplitWhitespace<'_>,
) -> Result<ChangeEvent<T>, Stop> {
    let value = T::read_item(source, words)?;
    let index = read(words)?;
    if is_insertion {
        Ok(ChangeEvent::InsertAt {
            event_id,
            max_value,
            value,
            index,
        })
    } else {
        Ok(ChangeEvent::RemoveAt {
            event_id,
            max_value,
            value,
            index,
        })
    }
}

/// Reads a split or merge event.
fn read_cut<T: Item>(
    source: &Source,
    kind: &str,
    event_id: Id,
    max_value: T,
    words: &mut SplitWhitespace<'_>,
) -> Result<ChangeEvent<T>, Stop> {
    match kind {
        "split" => Ok(ChangeEvent::SplitNode {
            event_id,
            max_value,
            split_index: read(words)?,
        }),
        "merge" => Ok(ChangeEvent::MergeNodes {
            event_id,
            max_value,
            next_max_value: T::read_item(source, words)?,
        }),
        _ => Err(Stop::Word),
    }
}

/// Reads an event.
pub fn read_event<T: Item>(
    source: &Source,
    words: &mut SplitWhitespace<'_>,
) -> Result<ChangeEvent<T>, Stop> {
    let event_id = Id::from(read::<u64>(words)?);
    let kind = words.next().ok_or(Stop::Word)?;
    let max_value = T::read_item(source, words)?;
    match kind {
        "insert" => read_edit(source, true, event_id, max_value, words),
        "remove" => read_edit(source, false, event_id, max_value, words),
        "create" => Ok(ChangeEvent::CreateNode {
            event_id,
            max_value,
        }),
        "drop" => Ok(ChangeEvent::RemoveNode {
            event_id,
            max_value,
        }),
        _ => read_cut(source, kind, event_id, max_value, words),
    }
}
