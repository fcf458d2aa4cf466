//! A node of either type, and the node that `halve` makes.

use indexset_core::array_node::ArrayNode;
use indexset_core::halve::halve_node;
use indexset_core::node::NodeLike;
use std::alloc::Global;
use std::mem;
use std::str::SplitWhitespace;
use test_script::player::Swept;
use test_script::script::{Stop, Subject, given, read, tell, tell_option};
use test_script::word::{Word, bound, is_sorted, item};

/// A type of nodes.
pub trait Kind<T: Word>: NodeLike<T> {
    /// Halves a node with the function for vectors.
    fn halve_by_function(&mut self) -> Result<Self, Stop>;
}

impl<T: Word> Kind<T> for Vec<T> {
    fn halve_by_function(&mut self) -> Result<Self, Stop> {
        if self.len() < 2 {
            return Err(Stop::NoCall);
        }
        Ok(halve_node(self)?)
    }
}

impl<T: Word + Default> Kind<T> for ArrayNode<T, 16> {
    fn halve_by_function(&mut self) -> Result<Self, Stop> {
        Err(Stop::NoCall)
    }
}

#[derive(Drop)]
pub struct Nodes<T: Word, N: Kind<T>> {
    alloc: Global,
    node: N,
    other: N,
    items: Vec<T>,
}

// Writes the items of a node.
fn tell_items<T: Word, N: NodeLike<T>>(node: &N, answer: &mut String) -> Result<(), Stop> {
    for item in node.iter() {
        tell(answer, item)?;
    }
    Ok(())
}

impl<T: Word, N: Kind<T>> Swept for Nodes<T, N> {
    fn make(alloc: Global, _size: usize) -> Result<Self, Stop> {
        Ok(Nodes {
            alloc,
            node: N::with_capacity(alloc, 0)?,
            other: N::with_capacity(alloc, 0)?,
            items: Vec::new(alloc),
        })
    }

    fn show(&self, text: &mut String) -> Result<(), Stop> {
        tell_items(&self.node, text)?;
        tell(text, "|")?;
        tell_items(&self.other, text)
    }

    fn part(
        &mut self,
        _name: &str,
        _words: &mut SplitWhitespace<'_>,
        _number: usize,
    ) -> Result<bool, Stop> {
        Ok(false)
    }
}

impl<T: Word, N: Kind<T>> Subject for Nodes<T, N> {
    fn call(
        &mut self,
        name: &str,
        words: &mut SplitWhitespace<'_>,
        answer: &mut String,
    ) -> Result<(), Stop> {
        match name {
            "node" => self.fill(words),
            "with_capacity" => self.start(words),
            "insert" => self.insert(words, answer),
            "reserve_one" => self.reserve_one(),
            "reserve" => self.reserve(words),
            "halve" => self.halve(),
            "halve_node" => {
                self.other = self.node.halve_by_function()?;
                Ok(())
            }
            "swap" => {
                mem::swap(&mut self.node, &mut self.other);
                Ok(())
            }
            _ => self.look(name, words, answer),
        }
    }
}

impl<T: Word, N: Kind<T>> Nodes<T, N> {
    // Makes a node of the words, inserted in order, without spare capacity if it asks for it.
    fn fill(&mut self, words: &mut SplitWhitespace<'_>) -> Result<(), Stop> {
        let mut items: Vec<T> = Vec::new(self.alloc);
        for word in words {
            items.push(T::of(self.alloc, word)?)?;
        }
        if N::limit() < items.len() {
            return Err(Stop::NoCall);
        }
        let mut node = N::with_capacity(self.alloc, items.len())?;
        for item in items {
            if !is_sorted(node.iter().as_slice()) || N::limit() <= node.len() {
                return Err(Stop::NoCall);
            }
            node.insert(item)?;
        }
        self.node = node;
        Ok(())
    }

    fn start(&mut self, words: &mut SplitWhitespace<'_>) -> Result<(), Stop> {
        let capacity = read(words)?;
        if N::limit() < capacity {
            return Err(Stop::NoCall);
        }
        self.node = N::with_capacity(self.alloc, capacity)?;
        Ok(())
    }

    fn insert(&mut self, words: &mut SplitWhitespace<'_>, answer: &mut String) -> Result<(), Stop> {
        let word = words.next().ok_or(Stop::Word)?;
        let item = T::of(self.alloc, word)?;
        if !is_sorted(self.node.iter().as_slice()) || N::limit() <= self.node.len() {
            return Err(Stop::NoCall);
        }
        let (is_new, i) = given(self.alloc, word, self.node.insert(item))?;
        Ok(write!(answer, " {is_new} {i}")?)
    }

    fn reserve_one(&mut self) -> Result<(), Stop> {
        if N::limit() <= self.node.len() {
            return Err(Stop::NoCall);
        }
        Ok(self.node.reserve_one()?)
    }

    fn reserve(&mut self, words: &mut SplitWhitespace<'_>) -> Result<(), Stop> {
        let count = read(words)?;
        if N::limit() - self.node.len() < count {
            return Err(Stop::NoCall);
        }
        Ok(self.node.reserve(count)?)
    }

    fn halve(&mut self) -> Result<(), Stop> {
        if self.node.len() < 2 {
            return Err(Stop::NoCall);
        }
        self.other = self.node.halve()?;
        Ok(())
    }

    fn look(
        &mut self,
        name: &str,
        words: &mut SplitWhitespace<'_>,
        answer: &mut String,
    ) -> Result<(), Stop> {
        match name {
            "len" => tell(answer, self.node.len()),
            "items" => tell_items(&self.node, answer),
            "item_back" => tell_option(answer, self.node.iter().next_back()),
            "limit" => tell(answer, N::limit()),
            "has_room_for" => tell(answer, self.node.capacity() >= read(words)?),
            "get_ith" => tell_option(answer, self.node.get_ith(read(words)?)),
            "min" => tell_option(answer, self.node.min()),
            "max" => tell_option(answer, self.node.max()),
            "rank" => self.rank(words, answer),
            "contains" | "try_select" | "delete" => self.look_for(name, words, answer),
            "need_to_split" => {
                let border = read(words)?;
                let item = item(self.alloc, words)?;
                tell(answer, self.node.need_to_split(border, &item))
            }
            _ => Err(Stop::NoCall),
        }
    }

    fn look_for(
        &mut self,
        name: &str,
        words: &mut SplitWhitespace<'_>,
        answer: &mut String,
    ) -> Result<(), Stop> {
        let item: T = item(self.alloc, words)?;
        if !is_sorted(self.node.iter().as_slice()) {
            return Err(Stop::NoCall);
        }
        match name {
            "contains" => tell(answer, self.node.contains(&item)),
            "try_select" => tell_option(answer, self.node.try_select(&item)),
            _ => match self.node.delete(&item) {
                Some((item, i)) => Ok(write!(answer, " {item} {i}")?),
                None => tell(answer, "none"),
            },
        }
    }

    // Writes the rank of a bound, from the start or from the end.
    fn rank(&self, words: &mut SplitWhitespace<'_>, answer: &mut String) -> Result<(), Stop> {
        let bound = bound::<T>(self.alloc, words)?;
        let is_from_start = read(words)?;
        if !is_sorted(self.node.iter().as_slice()) {
            return Err(Stop::NoCall);
        }
        tell_option(answer, self.node.rank(bound.as_ref(), is_from_start))
    }
}
