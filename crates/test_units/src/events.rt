//! Events without numbers, and event numbers.

use indexset_core::multipair::MultiPair;
use indexset_core::pair::Pair;
use indexset_events::change::{ChangeEvent, ChangeEventUnassigned, Id};
use indexset_wire::event::{read_event, write_event};
use indexset_wire::item::Item;
use std::alloc::Global;
use std::fmt::Display;
use std::test::Fail;

/// Returns whether a number is displayed with a width of three.
fn is_shown_in_width(alloc: Global, number: Id) -> bool {
    match format!(in alloc; "{number:>3}") {
        Ok(text) => text.as_str() == "  7",
        Err(_) => false,
    }
}

#[test]
fn numbers_as_text(rt: HostRuntime) {
    assert!(rt; is_shown_in_width(rt.alloc(), Id::from(7)));
}

#[test]
fn numbers_one_after_another(rt: HostRuntime) {
    let next = Id::from(5).is_next_for(Id::from(4));
    let none = Id::from(0).is_next_for(Id::from(18446744073709551615));
    let plain = u64::from(Id::from(7)) == 7 && Id::default().inner() == 0;
    let event_id = Id::from(9);
    let change = ChangeEventUnassigned::CreateNode { max_value: 3 }.assign_id(event_id);
    let told = change
        == ChangeEvent::CreateNode {
            event_id,
            max_value: 3,
        };
    assert!(rt; next && !none && plain && told);
}

/// Returns a split of the node of 9.
fn split_at(split_index: usize) -> ChangeEventUnassigned<u64> {
    ChangeEventUnassigned::SplitNode {
        max_value: 9,
        split_index,
    }
}

#[test]
fn events_with_and_without_a_number(rt: HostRuntime) -> Result<(), Fail> {
    let split = split_at(2);
    let told = ChangeEvent::SplitNode {
        event_id: Id::from(7),
        max_value: 9,
        split_index: 2,
    };
    assert!(rt; split != split_at(3));
    let seventh = split.clone()?.assign_id(Id::from(7));
    let eighth = split.assign_id(Id::from(8));
    assert!(rt; seventh == told && eighth != told);
    Ok(())
}

/// Returns the creation of the node of a pair.
fn creation_of(key: u64, value: char) -> ChangeEventUnassigned<Pair<u64, char>> {
    ChangeEventUnassigned::CreateNode {
        max_value: Pair { key, value },
    }
}

#[test]
fn events_of_pairs_are_compared_by_keys(rt: HostRuntime) {
    let event = creation_of(1, 'a');
    let same = event == creation_of(1, 'b');
    assert!(rt; same && event != creation_of(2, 'a'));
}

/// Returns whether the text is read as an event that has this text.
fn is_read<T: Item>(alloc: Global, text: &str) -> bool {
    let mut line = Vec::new(alloc);
    match read_event::<T>(alloc, text.as_bytes()) {
        Ok(Some(event)) => {
            write_event(&mut line, &event).is_ok() && line.as_slice() == text.as_bytes()
        }
        _ => false,
    }
}

/// Returns whether `{}` writes the text of the event that is read from it.
fn is_shown<T: Item + Display>(alloc: Global, text: &str) -> bool {
    match read_event::<T>(alloc, text.as_bytes()) {
        Ok(Some(event)) => match format!(in alloc; "{event}") {
            Ok(shown) => shown.as_str() == text,
            Err(_) => false,
        },
        _ => false,
    }
}

#[test]
fn texts_of_events_are_read(rt: HostRuntime) {
    let alloc = rt.alloc();
    assert!(rt; is_read::<u64>(alloc, "7 insert 18446744073709551615 5 2"));
    assert!(rt; is_read::<i8>(alloc, "0 remove 127 -128 0"));
    assert!(rt; is_read::<u32>(alloc, "18446744073709551615 create 4294967295"));
    assert!(rt; is_read::<i64>(alloc, "1 drop -9223372036854775808"));
    assert!(rt; is_read::<Pair<u16, i32>>(alloc, "2 split 65535:-1 128"));
}

#[test]
fn texts_of_events_of_numbered_pairs_are_read(rt: HostRuntime) {
    let alloc = rt.alloc();
    let merge = "3 merge 1:0:2 3:5:4";
    let insert = "4 insert 1:3:9 1:7:2 1";
    assert!(rt; is_read::<MultiPair<u64, u64>>(alloc, merge));
    assert!(rt; is_read::<MultiPair<i16, usize>>(alloc, insert));
    assert!(rt; !is_read::<Pair<u64, u64>>(alloc, merge));
}

#[test]
fn events_are_displayed_as_they_are_read(rt: HostRuntime) {
    let alloc = rt.alloc();
    assert!(rt; is_shown::<u64>(alloc, "7 insert 9 5 2"));
    assert!(rt; is_shown::<i8>(alloc, "7 remove -1 -5 2"));
    assert!(rt; is_shown::<Pair<u16, u8>>(alloc, "7 split 9:1 2"));
    assert!(rt; is_shown::<Pair<u16, u8>>(alloc, "7 merge 9:1 10:2"));
}

#[test]
fn texts_of_no_event_are_refused(rt: HostRuntime) {
    let alloc = rt.alloc();
    assert!(rt; !is_read::<u8>(alloc, "1 create 256"));
    assert!(rt; !is_read::<u8>(alloc, "1 create +5"));
    assert!(rt; !is_read::<u8>(alloc, "1 create 05"));
    assert!(rt; !is_read::<i8>(alloc, "1 create -0"));
    assert!(rt; !is_read::<i8>(alloc, "1 create -129"));
    assert!(rt; !is_read::<u64>(alloc, "18446744073709551616 create 5"));
    assert!(rt; !is_read::<u64>(alloc, "1 create 5 "));
    assert!(rt; !is_read::<u64>(alloc, "1 make 5"));
    assert!(rt; !is_read::<u64>(alloc, "1 insert 5 2 "));
    assert!(rt; !is_read::<Pair<u8, u8>>(alloc, "1 create 5:0:5"));
    assert!(rt; !is_read::<u64>(alloc, ""));
}
