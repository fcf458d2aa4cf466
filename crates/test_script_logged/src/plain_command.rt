//! Commands to the plain set and the plain map, and their replies.

use crate::command::tell_pair;
use crate::item::{Item, Source, read_pair};
use crate::run::{Command, Reply};
use indexset_bench::map_run::{MapCommand, MapReply};
use indexset_bench::set_run::{SetCommand, SetReply};
use std::str::SplitWhitespace;
use test_script::script::{Stop, read, tell, tell_option};

impl<T: Item> Command for SetCommand<T> {
    fn of_name(source: &Source, name: &str, words: &mut SplitWhitespace<'_>) -> Result<Self, Stop> {
        Ok(match name {
            "get_index" => SetCommand::GetIndex(read(words)?),
            "first" => SetCommand::First,
            "last" => SetCommand::Last,
            "pop_first" => SetCommand::PopFirst,
            "pop_last" => SetCommand::PopLast,
            "len" => SetCommand::Len,
            "clear" => SetCommand::Clear,
            _ => return of_item(name, T::read_item(source, words)?),
        })
    }
}

/// Returns the command to a set that has this name and item.
fn of_item<T: Item>(name: &str, item: T) -> Result<SetCommand<T>, Stop> {
    match name {
        "insert" => Ok(SetCommand::Insert(item)),
        "remove" => Ok(SetCommand::Remove(item)),
        "contains" => Ok(SetCommand::Contains(item)),
        "replace" => Ok(SetCommand::Replace(item)),
        "take" => Ok(SetCommand::Take(item)),
        "get" => Ok(SetCommand::Get(item)),
        "lower_bound" => Ok(SetCommand::LowerBound(item)),
        "rank" => Ok(SetCommand::Rank(item)),
        _ => Err(Stop::Word),
    }
}

impl<T: Item> Reply for SetReply<T> {
    fn tell_reply(self, answer: &mut String) -> Result<(), Stop> {
        match self {
            SetReply::Flag(is_so) => tell(answer, is_so),
            SetReply::Item(item) => tell_option(answer, item),
            SetReply::Count(count) => tell(answer, count),
            SetReply::Done => tell(answer, "done"),
        }
    }
}

impl<K: Item> Command for MapCommand<K, char> {
    fn of_name(source: &Source, name: &str, words: &mut SplitWhitespace<'_>) -> Result<Self, Stop> {
        Ok(match name {
            "insert" => {
                let (key, value) = read_pair(source, words)?;
                MapCommand::Insert(key, value)
            }
            "get_index" => MapCommand::GetIndex(read(words)?),
            "pop_first" => MapCommand::PopFirst,
            "pop_last" => MapCommand::PopLast,
            "len" => MapCommand::Len,
            "clear" => MapCommand::Clear,
            _ => return of_key(name, K::read_item(source, words)?),
        })
    }
}

/// Returns the command to a map that has this name and key.
fn of_key<K: Item>(name: &str, key: K) -> Result<MapCommand<K, char>, Stop> {
    match name {
        "get" => Ok(MapCommand::Get(key)),
        "remove" => Ok(MapCommand::Remove(key)),
        "remove_entry" => Ok(MapCommand::RemoveEntry(key)),
        "contains_key" => Ok(MapCommand::ContainsKey(key)),
        "rank" => Ok(MapCommand::Rank(key)),
        _ => Err(Stop::Word),
    }
}

impl<K: Item> Reply for MapReply<K, char> {
    fn tell_reply(self, answer: &mut String) -> Result<(), Stop> {
        match self {
            MapReply::Value(value) => tell_option(answer, value),
            MapReply::Entry(entry) => tell_pair(answer, entry),
            MapReply::Flag(is_so) => tell(answer, is_so),
            MapReply::Count(count) => tell(answer, count),
            MapReply::Done => tell(answer, "done"),
        }
    }
}
