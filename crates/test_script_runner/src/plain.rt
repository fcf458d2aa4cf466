//! Subjects of the plain family: sets and maps of numbers, letters, texts, equal items that differ,
//! and items that own an allocation. Also the base of both families: nodes of either type, the
//! index of lengths and the list that is divided into nodes.

mod entries;
mod indexes;
mod lending;
mod lent;
mod maps;
mod nodes;
mod sets;
mod spines;
mod walks;

use crate::plain::indexes::Indexes;
use crate::plain::lending::Lending;
use crate::plain::maps::Maps;
use crate::plain::nodes::Nodes;
use crate::plain::sets::Sets;
use crate::plain::spines::Spines;
use indexset_core::array_node::ArrayNode;
use test_script::owned::Owned;
use test_script::player::{Fault, Script};
use test_script::tagged::Tagged;

/// Plays a script on the subject that it names, if there is one of this name.
pub fn play(script: &Script) -> Option<Result<bool, Fault>> {
    match script.subject() {
        "set" => Some(script.play::<Sets<u64>>()),
        "tagged_set" => Some(script.play::<Sets<Tagged>>()),
        "owned_set" => Some(script.play::<Sets<Owned>>()),
        "map" => Some(script.play::<Maps<u64, u64>>()),
        "letter_map" => Some(script.play::<Maps<u64, char>>()),
        "tagged_map" => Some(script.play::<Maps<Tagged, char>>()),
        "name_map" => Some(script.play::<Maps<String, u64>>()),
        "owned_map" => Some(script.play::<Maps<Owned, Owned>>()),
        "lending_map" => Some(script.play::<Lending>()),
        "node" => Some(script.play::<Nodes<u64, Vec<u64>>>()),
        "tagged_node" => Some(script.play::<Nodes<Tagged, Vec<Tagged>>>()),
        "array_node" => Some(script.play::<Nodes<u64, ArrayNode<u64, 16>>>()),
        "index" => Some(script.play::<Indexes>()),
        "spine" => Some(script.play::<Spines<u64>>()),
        "owned_spine" => Some(script.play::<Spines<Owned>>()),
        _ => None,
    }
}
