//! Nodes as words of a script: `[1,2]`, or `[1:a #0,1:b #1]`.

use crate::item::{Item, Source, item_of};
use indexset_core::node::NodeLike;
use indexset_core::refusal::{Refusal, Refused};
use std::alloc::{AllocError, Global};
use std::fmt::Display;
use std::str::SplitWhitespace;
use test_script::nodes::node_of;
use test_script::script::Stop;

/// Makes nodes of items.
pub trait Maker<T, N>: Drop {
    /// Returns the node of these items.
    fn node_of(alloc: Global, items: Vec<T>) -> Result<N, Stop>;
}

/// Uses the list itself, in any order.
#[derive(Drop)]
pub struct Whole;

impl<T> Maker<T, Vec<T>> for Whole {
    fn node_of(_alloc: Global, items: Vec<T>) -> Result<Vec<T>, Stop> {
        Ok(items)
    }
}

/// Inserts one item after another.
#[derive(Drop)]
pub struct OneByOne;

impl<T: Item, N: NodeLike<T>> Maker<T, N> for OneByOne {
    fn node_of(alloc: Global, items: Vec<T>) -> Result<N, Stop> {
        if N::limit() < items.len() {
            return Err(Stop::NoCall);
        }
        Ok(node_of(alloc, items.as_slice())?)
    }
}

/// Writes a node.
pub fn tell_node<T: Item>(answer: &mut String, items: &[T]) -> Result<(), Stop> {
    answer.push_str(" [")?;
    for (place, item) in items.iter().enumerate() {
        if place > 0 {
            answer.push_str(",")?;
        }
        write!(answer, "{item}")?;
    }
    answer.push_str("]")?;
    Ok(())
}

/// Writes nodes.
pub fn tell_nodes<T: Item, N: NodeLike<T>>(answer: &mut String, nodes: &[N]) -> Result<(), Stop> {
    for node in nodes {
        tell_node(answer, node.iter().as_slice())?;
    }
    Ok(())
}

/// Returns the items of the text of a node.
fn items_of<T: Item>(source: &Source, text: &str) -> Result<Vec<T>, Stop> {
    let inside = text.trim().strip_prefix('[').ok_or(Stop::Word)?;
    let inside = inside.strip_suffix(']').ok_or(Stop::Word)?;
    let mut items = Vec::new(source.alloc);
    for item in inside.split(',') {
        if !item.is_empty() {
            items.push(item_of(source, item)?)?;
        }
    }
    Ok(items)
}

/// Reads a node from each remaining word.
pub fn read_nodes<T: Item, N: Drop, M: Maker<T, N>>(
    source: &Source,
    words: &mut SplitWhitespace<'_>,
) -> Result<Vec<N>, Stop> {
    let mut nodes = Vec::new(source.alloc);
    let mut text = String::new(source.alloc);
    for word in words {
        write!(text, " {word}")?;
        if word.ends_with(']') {
            let items = items_of(source, text.as_str())?;
            nodes.push(M::node_of(source.alloc, items)?)?;
            text.clear();
        }
    }
    if text.is_empty() {
        Ok(nodes)
    } else {
        Err(Stop::Word)
    }
}

/// Reads a node.
pub fn read_node<T: Item, N: Drop, M: Maker<T, N>>(
    source: &Source,
    words: &mut SplitWhitespace<'_>,
) -> Result<N, Stop> {
    let mut nodes: Vec<N> = read_nodes::<T, N, M>(source, words)?;
    nodes.pop().ok_or(Stop::Word)
}

/// Returns the text of a node.
pub fn node_text<T: Item, N: NodeLike<T>>(alloc: Global, node: &N) -> Result<String, Stop> {
    let mut text = String::new(alloc);
    tell_node(&mut text, node.iter().as_slice())?;
    Ok(text)
}

/// Returns the texts of nodes.
pub fn nodes_text<T: Item, N: NodeLike<T>>(alloc: Global, nodes: &[N]) -> Result<String, Stop> {
    let mut text = String::new(alloc);
    tell_nodes(&mut text, nodes)?;
    Ok(text)
}

/// Returns the stop of a refused call, and writes what the call returned. It must be the argument.
pub fn handed_back(
    answer: &mut String,
    given: &str,
    back: &str,
    cause: Refusal,
) -> Result<Stop, AllocError> {
    answer.push_str(" ")?;
    answer.push_str(back)?;
    if back == given {
        Ok(Stop::Refused(cause))
    } else {
        Ok(Stop::Otherwise)
    }
}

/// Returns what a call made, or its stop.
pub fn given_back<X, D: Display + Drop>(
    alloc: Global,
    answer: &mut String,
    given: &str,
    made: Result<X, Refused<D>>,
) -> Result<X, Stop> {
    match made {
        Ok(value) => Ok(value),
        Err(Refused { value, cause }) => {
            let back = format!(in alloc; "{value}")?;
            Err(handed_back(answer, given, back.as_str(), cause)?)
        }
    }
}

/// Returns what a call made of nodes, or its stop.
pub fn nodes_back<X, T: Item, N: NodeLike<T>>(
    alloc: Global,
    answer: &mut String,
    given: &str,
    made: Result<X, Refused<Vec<N>>>,
) -> Result<X, Stop> {
    match made {
        Ok(value) => Ok(value),
        Err(Refused { value, cause }) => {
            let back = nodes_text::<T, N>(alloc, value.as_slice())?;
            Err(handed_back(answer, given, back.as_str(), cause)?)
        }
    }
}

/// Returns what a call made of one node, or its stop.
pub fn node_back<T: Item, N: NodeLike<T>>(
    alloc: Global,
    answer: &mut String,
    given: &str,
    made: Result<(), Refused<N>>,
) -> Result<(), Stop> {
    match made {
        Ok(()) => Ok(()),
        Err(Refused { value, cause }) => {
            let back = node_text::<T, N>(alloc, &value)?;
            Err(handed_back(answer, given, back.as_str(), cause)?)
        }
    }
}
