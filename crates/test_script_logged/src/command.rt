//! Commands to the logged trees, and their replies.

use crate::item::{Item, Source, Value, read_pair};
use crate::run::{Command, Reply};
use indexset_bench::logged::map::{LoggedMapCommand, LoggedMapReply};
use indexset_bench::logged::multimap::{LoggedMultiCommand, LoggedMultiReply};
use indexset_bench::logged::set::{LoggedSetCommand, LoggedSetReply};
use indexset_core::pair::Pair;
use std::fmt::Display;
use std::str::SplitWhitespace;
use test_script::script::{Stop, tell, tell_option};

impl<T: Item> Command for LoggedSetCommand<T> {
    fn of_name(source: &Source, name: &str, words: &mut SplitWhitespace<'_>) -> Result<Self, Stop> {
        let item = T::read_item(source, words)?;
        match name {
            "put" => Ok(LoggedSetCommand::Put(item)),
            "put_checked" => Ok(LoggedSetCommand::PutChecked(item)),
            "remove" => Ok(LoggedSetCommand::Remove(item)),
            _ => Err(Stop::Word),
        }
    }
}

impl<T: Item> Reply for LoggedSetReply<T> {
    fn tell_reply(self, answer: &mut String) -> Result<(), Stop> {
        match self {
            LoggedSetReply::Old(item) => tell_option(answer, item),
            LoggedSetReply::Added(is_new) => tell(answer, is_new),
        }
    }
}

impl<K: Item, V: Value> Command for LoggedMapCommand<K, V> {
    fn of_name(source: &Source, name: &str, words: &mut SplitWhitespace<'_>) -> Result<Self, Stop> {
        if name == "remove" {
            return Ok(LoggedMapCommand::Remove(K::read_item(source, words)?));
        }
        let (key, value) = read_pair(source, words)?;
        match name {
            "insert" => Ok(LoggedMapCommand::Insert(key, value)),
            "checked_insert" => Ok(LoggedMapCommand::CheckedInsert(key, value)),
            _ => Err(Stop::Word),
        }
    }
}

/// Writes a pair, or `none`.
pub fn tell_pair<K: Display + Drop, V: Display + Drop>(
    answer: &mut String,
    pair: Option<(K, V)>,
) -> Result<(), Stop> {
    match pair {
        Some((key, value)) => tell(answer, Pair { key, value }),
        None => tell(answer, "none"),
    }
}

impl<K: Item, V: Value> Reply for LoggedMapReply<K, V> {
    fn tell_reply(self, answer: &mut String) -> Result<(), Stop> {
        match self {
            LoggedMapReply::OldValue(value) => tell_option(answer, value),
            LoggedMapReply::Added(is_new) => tell(answer, is_new),
            LoggedMapReply::Out(pair) => tell_pair(answer, pair),
        }
    }
}

impl<K: Item, V: Value> Command for LoggedMultiCommand<K, V> {
    fn of_name(source: &Source, name: &str, words: &mut SplitWhitespace<'_>) -> Result<Self, Stop> {
        if name == "remove_some" {
            return Ok(LoggedMultiCommand::RemoveSome(K::read_item(source, words)?));
        }
        let (key, value) = read_pair(source, words)?;
        match name {
            "insert" => Ok(LoggedMultiCommand::Insert(key, value)),
            "remove" => Ok(LoggedMultiCommand::Remove(key, value)),
            _ => Err(Stop::Word),
        }
    }
}

impl<K: Item, V: Value> Reply for LoggedMultiReply<K, V> {
    fn tell_reply(self, answer: &mut String) -> Result<(), Stop> {
        match self {
            LoggedMultiReply::OldValue(value) => tell_option(answer, value),
            LoggedMultiReply::Out(pair) => tell_pair(answer, pair),
        }
    }
}
