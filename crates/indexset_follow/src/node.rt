//! Parses the lines of nodes.

ghost use Rattle.std.specs.Prelude.{◌≡◌, [], ◌∷◌, ◌++◌, IfOk, OnOk, IfErr};
ghost use Rattle.std.specs.Option.{option_map};
ghost use Rattle.indexset_follow.specs.NodeLine.{node_of, pairs_of, words};

use indexset_bench::key::{Key, read_item};
use indexset_core::pair::Pair;
use indexset_lines::RunFault;
use indexset_wire::parts::cut;
use std::alloc::Global;

/// A node of a snapshot.
pub type Node<T> = Vec<Pair<T, T>>;

/// Returns the node of a line, or `None` if it is not one.
pub fn read_node<T: Key>(alloc: Global, line: &[u8]) -> Result<Option<Node<T>>, RunFault>
    ensures node { IfOk result (λ node. option_map (λ n. n.items) node ≡ node_of T.texts line.now) }
    ensures fault { IfErr result (λ fault. fault ≡ RunFault.Memory) }
{
    match cut(line, b' ') {
        Some((word, text)) => {
            if word == b"node".as_slice() {
                read_pairs(alloc, text)
            } else {
                Ok(None)
            }
        }
        None => Ok(None),
    }
}

/// Returns the pairs of a text, or `None` if a word is not a pair.
fn read_pairs<T: Key>(alloc: Global, text: &[u8]) -> Result<Option<Node<T>>, RunFault>
    ensures pairs { IfOk result (λ node. option_map (λ n. n.items) node
        ≡ pairs_of T.texts (words text.now)) }
    ensures fault { IfErr result (λ fault. fault ≡ RunFault.Memory) }
{
    let mut items = Vec::new(alloc);
    let mut left = text;
    while let Some((word, rest)) = cut(left, b' ') {
        match read_item(alloc, word)? {
            Some(item) => keep(&mut items, item)?,
            None => return Ok(None),
        }
        left = rest;
    }
    match read_item(alloc, left)? {
        Some(item) => {
            keep(&mut items, item)?;
            Ok(Some(items))
        }
        None => Ok(None),
    }
}

/// Appends a pair.
fn keep<T: Key>(items: &mut Node<T>, item: Pair<T, T>) -> Result<(), RunFault>
    ensures kept { OnOk result (items.new.items ≡ items.old.items ++ item ∷ []) }
    ensures fault { IfErr result (λ fault. fault ≡ RunFault.Memory) }
{
    items.push(item).map_err(|_| RunFault::Memory)
}
