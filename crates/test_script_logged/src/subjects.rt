//! The subjects by name.

use crate::brief::{Brief, Metering};
use crate::events::Events;
use crate::item::{Item, Value};
use crate::map::Maps;
use crate::meter::Metered;
use crate::multimap::MultiMaps;
use crate::node::{OneByOne, Whole};
use crate::plain_run::{MapRuns, SetRuns};
use crate::program::Programs;
use crate::replica::Replicas;
use crate::set::Sets;
use crate::vec_set::VecSets;
use indexset_core::array_node::ArrayNode;
use indexset_core::multipair::MultiPair;
use indexset_core::pair::Pair;
use test_script::owned::Owned;
use test_script::player::{Fault, Script};
use test_script::tagged::Tagged;

type Letter = Pair<u64, char>;

type Numbered = MultiPair<u64, char>;

type SetsOf<const N: usize> = Sets<u64, ArrayNode<u64, N>, OneByOne>;

type MapsOf<const N: usize> = Maps<u64, char, ArrayNode<Letter, N>, OneByOne>;

type MultiMapsOf<const N: usize> = MultiMaps<u64, char, ArrayNode<Numbered, N>, OneByOne>;

/// Plays a script on the subject that it names, if it is one of the logged family.
///
/// Returns whether an allocation of a call failed. The name `logged_set+array_4` is a set of
/// vectors, and then one of nodes with space for four items.
pub fn play(script: &Script) -> Option<Result<bool, Fault>> {
    let mut parts = script.subject().split('+');
    let name = parts.next()?;
    let mut is_refused = match play_in_vectors(script, name)? {
        Ok(is_refused) => is_refused,
        Err(fault) => return Some(Err(fault)),
    };
    for nodes in parts {
        match play_in_arrays(script, name, nodes)? {
            Ok(was_refused) => is_refused = is_refused || was_refused,
            Err(fault) => return Some(Err(fault)),
        }
    }
    Some(Ok(is_refused))
}

fn play_on<S: Metering>(script: &Script) -> Option<Result<bool, Fault>> {
    Some(script.play::<Brief<S>>())
}

fn play_in_vectors(script: &Script, name: &str) -> Option<Result<bool, Fault>> {
    match name {
        "logged_set" => play_on::<VecSets<u64>>(script),
        "tagged_logged_set" => play_on::<VecSets<Tagged>>(script),
        "owned_logged_set" => play_on::<VecSets<Owned>>(script),
        "metered_logged_set" => play_on::<VecSets<Metered>>(script),
        "replica" => play_on::<Replicas<u64, u64>>(script),
        "tagged_replica" => play_on::<Replicas<Tagged, Tagged>>(script),
        "owned_replica" => play_on::<Replicas<Owned, Owned>>(script),
        "metered_replica" => play_on::<Replicas<Metered, Metered>>(script),
        "letter_replica" => play_on::<Replicas<Letter, u64>>(script),
        "numbered_replica" => play_on::<Replicas<Numbered, u64>>(script),
        _ => play_pairs(script, name),
    }
}

fn play_pairs(script: &Script, name: &str) -> Option<Result<bool, Fault>> {
    match name {
        "logged_map" => play_map::<u64, char>(script),
        "owned_logged_map" => play_map::<Owned, char>(script),
        "metered_logged_map" => play_map::<Metered, u64>(script),
        "multimap" => play_multimap::<u64, char>(script),
        "owned_multimap" => play_multimap::<Owned, char>(script),
        "metered_multimap" => play_multimap::<Metered, u64>(script),
        "text_multimap" => play_multimap::<String, u64>(script),
        "set_runs" => Some(script.play::<SetRuns<u64>>()),
        "owned_set_runs" => Some(script.play::<SetRuns<Owned>>()),
        "metered_set_runs" => play_on::<SetRuns<Metered>>(script),
        "map_runs" => Some(script.play::<MapRuns<u64>>()),
        "owned_map_runs" => Some(script.play::<MapRuns<Owned>>()),
        "metered_map_runs" => play_on::<MapRuns<Metered>>(script),
        "program" => Some(script.play::<Programs>()),
        "events" => Some(script.play::<Events<u64>>()),
        "letter_events" => Some(script.play::<Events<Letter>>()),
        "numbered_events" => Some(script.play::<Events<Numbered>>()),
        _ => None,
    }
}

fn play_map<K: Item, V: Value>(script: &Script) -> Option<Result<bool, Fault>> {
    play_on::<Maps<K, V, Vec<Pair<K, V>>, Whole>>(script)
}

fn play_multimap<K: Item, V: Value>(script: &Script) -> Option<Result<bool, Fault>> {
    play_on::<MultiMaps<K, V, Vec<MultiPair<K, V>>, Whole>>(script)
}

fn play_in_arrays(script: &Script, name: &str, nodes: &str) -> Option<Result<bool, Fault>> {
    match name {
        "logged_set" => play_set_in(script, nodes),
        "logged_map" => play_map_in(script, nodes),
        "multimap" => play_multimap_in(script, nodes),
        _ => None,
    }
}

fn play_set_in(script: &Script, nodes: &str) -> Option<Result<bool, Fault>> {
    match nodes {
        "array_2" => play_on::<SetsOf<2>>(script),
        "array_3" => play_on::<SetsOf<3>>(script),
        "array_4" => play_on::<SetsOf<4>>(script),
        "array_8" => play_on::<SetsOf<8>>(script),
        "array_10" => play_on::<SetsOf<10>>(script),
        _ => None,
    }
}

fn play_map_in(script: &Script, nodes: &str) -> Option<Result<bool, Fault>> {
    match nodes {
        "array_2" => play_on::<MapsOf<2>>(script),
        "array_4" => play_on::<MapsOf<4>>(script),
        "array_8" => play_on::<MapsOf<8>>(script),
        _ => None,
    }
}

fn play_multimap_in(script: &Script, nodes: &str) -> Option<Result<bool, Fault>> {
    match nodes {
        "array_3" => play_on::<MultiMapsOf<3>>(script),
        "array_4" => play_on::<MultiMapsOf<4>>(script),
        _ => None,
    }
}
