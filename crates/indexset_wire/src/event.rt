//! The text of an event, written and read.
ghost use Rattle.std.specs.Prelude.{◌≡◌, ◌++◌, ◌∷◌, IfOk, IsOk, OnOk, codes, false};
ghost use Rattle.std.specs.Fmt.{decimal};
ghost use Rattle.std.specs.Io.KnownBytes.{Appends};
ghost use Rattle.indexset_wire.specs.Event.{EventInRange, event_head, event_of, event_text};
ghost use Rattle.indexset_wire.specs.Event.{item_event, named_event, word_event};

use crate::item::Item;
use crate::number::{read_number, write_number};
use crate::parts::cut;
use indexset_events::change::{ChangeEvent, Id};
use std::alloc::{AllocError, Global};
use std::io::{self, Write};

/// Writes the text of an event, as in `7 insert 9:1 5:1 2`, without an end of line.
///
/// The text has the number, the change, the last item of the node, and then the item and its index.
///
/// # Errors
///
/// Those of the writer.
///
/// ```
/// let event = ChangeEvent::SplitNode { event_id: Id::from(7), max_value: 5u64, split_index: 2 };
/// let mut line = Vec::new(alloc);
/// write_event(&mut line, &event)?;
/// assert!(rt; line.as_slice() == b"7 split 5 2".as_slice());
/// ```
pub fn write_event<T: Item, W: Write>(writer: &mut W, event: &ChangeEvent<T>) -> io::Result<()>
    ensures written { OnOk result (Appends (W.contents writer.old) (W.contents writer.new)
        (event_text T.texts event.now)) }
{
    match event {
        ChangeEvent::CreateNode {
            event_id,
            max_value,
        } => write_head(writer, *event_id, b" create ", max_value),
        ChangeEvent::RemoveNode {
            event_id,
            max_value,
        } => write_head(writer, *event_id, b" drop ", max_value),
        ChangeEvent::InsertAt {
            event_id,
            max_value,
            value,
            index,
        } => {
            write_head(writer, *event_id, b" insert ", max_value)?;
            write_place(writer, value, *index)
        }
        ChangeEvent::RemoveAt {
            event_id,
            max_value,
            value,
            index,
        } => {
            write_head(writer, *event_id, b" remove ", max_value)?;
            write_place(writer, value, *index)
        }
        ChangeEvent::SplitNode {
            event_id,
            max_value,
            split_index,
        } => {
            write_head(writer, *event_id, b" split ", max_value)?;
            writer.write_all(b" ")?;
            write_number(writer, *split_index as u64)
        }
        ChangeEvent::MergeNodes {
            event_id,
            max_value,
            next_max_value,
        } => {
            write_head(writer, *event_id, b" merge ", max_value)?;
            writer.write_all(b" ")?;
            next_max_value.write(writer)
        }
    }
}

/// Writes the first fields of an event: its number, its word, and the maximum of its node.
fn write_head<T: Item, W: Write>(writer: &mut W, id: Id, word: &[u8], max: &T) -> io::Result<()>
    ensures written { OnOk result (Appends (W.contents writer.old) (W.contents writer.new)
        (event_head T.texts id word.now max.now)) }
{
    write_number(writer, id.inner())?;
    writer.write_all(word)?;
    max.write(writer)
}

/// Writes an item and its index, each after a space.
fn write_place<T: Item, W: Write>(writer: &mut W, value: &T, index: usize) -> io::Result<()>
    ensures written { OnOk result (Appends (W.contents writer.old) (W.contents writer.new)
        (32 ∷ (T.texts.text value.now ++ 32 ∷ decimal index))) }
{
    writer.write_all(b" ")?;
    value.write(writer)?;
    writer.write_all(b" ")?;
    write_number(writer, index as u64)
}

/// Returns the event that has this text, or `None` if no event has it.
///
/// # Errors
///
/// `AllocError` if memory runs out; not if items allocate nothing.
///
/// ```
/// let event = ChangeEvent::CreateNode { event_id: Id::from(7), max_value: 5 };
/// assert!(rt; read_event::<u64>(alloc, b"7 create 5")? == Some(event));
/// assert!(rt; read_event::<u64>(alloc, b"7 make 5")?.is_none());
/// ```
pub fn read_event<T: Item>(alloc: Global, line: &[u8]) -> Result<Option<ChangeEvent<T>>, AllocError>
    ensures event { IfOk result (λ event. event ≡ event_of T.texts line.now) }
    ensures no_memory { T.allocates ≡ false → IsOk result }
{
    let Some((digits, change)) = cut(line, b' ') else {
        return Ok(None);
    };
    let Some(number) = read_number(digits) else {
        return Ok(None);
    };
    let Some((word, rest)) = cut(change, b' ') else {
        return Ok(None);
    };
    read_change(alloc, Id::from(number), word, rest)
}

/// Returns the event of a number, a word and the text after it.
fn read_change<T: Item>(
    alloc: Global,
    event_id: Id,
    word: &[u8],
    rest: &[u8],
) -> Result<Option<ChangeEvent<T>>, AllocError>
    ensures event { IfOk result (λ event. event ≡ word_event T.texts event_id word.now rest.now) }
    ensures no_memory { T.allocates ≡ false → IsOk result }
{
    if word == b"create".as_slice() {
        let last = T::read(alloc, rest)?;
        return Ok(last.map(|max_value| ChangeEvent::CreateNode {
            event_id,
            max_value,
        }));
    }
    if word == b"drop".as_slice() {
        let last = T::read(alloc, rest)?;
        return Ok(last.map(|max_value| ChangeEvent::RemoveNode {
            event_id,
            max_value,
        }));
    }
    let Some((name, rest)) = cut(rest, b' ') else {
        return Ok(None);
    };
    let Some(max_value) = T::read(alloc, name)? else {
        return Ok(None);
    };
    read_named(alloc, event_id, word, max_value, rest)
}

/// Returns the event of a number, a word, a node's maximum and the text after it.
fn read_named<T: Item>(
    alloc: Global,
    event_id: Id,
    word: &[u8],
    max_value: T,
    rest: &[u8],
) -> Result<Option<ChangeEvent<T>>, AllocError>
    ensures event { IfOk result (λ event. event
        ≡ named_event T.texts event_id word.now max_value rest.now) }
    ensures no_memory { T.allocates ≡ false → IsOk result }
{
    if word == b"split".as_slice() {
        let Some(index) = read_number(rest) else {
            return Ok(None);
        };
        return Ok(Some(ChangeEvent::SplitNode {
            event_id,
            max_value,
            split_index: index as usize,
        }));
    }
    if word == b"merge".as_slice() {
        let Some(next_max_value) = T::read(alloc, rest)? else {
            return Ok(None);
        };
        return Ok(Some(ChangeEvent::MergeNodes {
            event_id,
            max_value,
            next_max_value,
        }));
    }
    read_placed(alloc, event_id, word, max_value, rest)
}

/// Returns the event of a number, a word, a node's maximum and an item with an index.
fn read_placed<T: Item>(
    alloc: Global,
    event_id: Id,
    word: &[u8],
    max_value: T,
    rest: &[u8],
) -> Result<Option<ChangeEvent<T>>, AllocError>
    ensures event { IfOk result (λ event. event
        ≡ item_event T.texts event_id word.now max_value rest.now) }
    ensures no_memory { T.allocates ≡ false → IsOk result }
{
    let Some((item, digits)) = cut(rest, b' ') else {
        return Ok(None);
    };
    let Some(value) = T::read(alloc, item)? else {
        return Ok(None);
    };
    let Some(index) = read_number(digits) else {
        return Ok(None);
    };
    let index = index as usize;
    if word == b"insert".as_slice() {
        Ok(Some(ChangeEvent::InsertAt {
            event_id,
            max_value,
            value,
            index,
        }))
    } else if word == b"remove".as_slice() {
        Ok(Some(ChangeEvent::RemoveAt {
            event_id,
            max_value,
            value,
            index,
        }))
    } else {
        Ok(None)
    }
}

/// Does nothing; its contract states that the items and the numbers of the event are in range.
///
/// A proof then knows that the text of the event is read as the identical event: see
/// `laws::events_are_read`.
///
/// ```
/// # use indexset::cdc::text::event::recall_range;
/// let event = ChangeEvent::CreateNode { event_id: Id::from(7), max_value: 5u64 };
/// recall_range(&event);
/// ```
pub fn recall_range<T: Item>(event: &ChangeEvent<T>)
    ensures in_range { EventInRange T.texts event.now }
{
    let _number = event.id().inner();
    match event {
        ChangeEvent::InsertAt {
            max_value,
            value,
            index,
            ..
        } => {
            let _index = *index;
            max_value.recall_range();
            value.recall_range();
        }
        ChangeEvent::RemoveAt {
            max_value,
            value,
            index,
            ..
        } => {
            let _index = *index;
            max_value.recall_range();
            value.recall_range();
        }
        ChangeEvent::SplitNode {
            max_value,
            split_index,
            ..
        } => {
            let _index = *split_index;
            max_value.recall_range();
        }
        ChangeEvent::MergeNodes {
            max_value,
            next_max_value,
            ..
        } => {
            max_value.recall_range();
            next_max_value.recall_range();
        }
        ChangeEvent::CreateNode { max_value, .. } => max_value.recall_range(),
        ChangeEvent::RemoveNode { max_value, .. } => max_value.recall_range(),
    }
}
