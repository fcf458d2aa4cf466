//! Two lists that are divided into nodes, and a plain list.
//!
//! A spot is `start`, `end`, `at=3` for the item at this position, or `after=3` after three items.
ghost use Rattle.std.specs.Prelude.{IfOk};
ghost use Rattle.indexset_spine.specs.NodeList.{IsSpot};

use indexset_spine::iter::Iter;
use indexset_spine::spine::Spine;
use indexset_spine::spot::Spot;
use std::alloc::Global;
use std::mem;
use std::str::SplitWhitespace;
use test_script::player::Swept;
use test_script::script::{Stop, Subject, given, read, tell, tell_option};
use test_script::walk;
use test_script::word::{Word, item, items};

#[derive(Drop)]
pub struct Spines<T: Word> {
    alloc: Global,
    size: usize,
    spine: Spine<T>,
    other: Spine<T>,
    list: Vec<T>,
}

// Returns an empty spine.
fn empty<T: Word>(alloc: Global, size: usize) -> Result<Spine<T>, Stop> {
    if size < 2 {
        return Err(Stop::NoCall);
    }
    Ok(Spine::new(alloc, size)?)
}

// Returns the spot of a word.
fn spot_of<T: Word>(spine: &Spine<T>, words: &mut SplitWhitespace<'_>) -> Result<Spot, Stop>
    ensures { IfOk result (λ spot. IsSpot spine.now.nodes spot) }
{
    let word = words.next().ok_or(Stop::Word)?;
    match word.split_once('=').unwrap_or((word, "0")) {
        ("start", _) => Ok(spine.start()),
        ("end", _) => Ok(spine.end()),
        ("at", i) => {
            let i = i.parse().map_err(|_| Stop::Word)?;
            spine.spot(i).ok_or(Stop::NoCall)
        }
        ("after", i) => {
            let i = i.parse::<usize>().map_err(|_| Stop::Word)?;
            if spine.len() < i {
                return Err(Stop::NoCall);
            }
            Ok(spine.spot_after(i))
        }
        _ => Err(Stop::Word),
    }
}

fn tell_spot(answer: &mut String, spot: Option<Spot>) -> Result<(), Stop> {
    match spot {
        Some(spot) => Ok(write!(answer, " {} {} {}", spot.node, spot.offset, spot.found)?),
        None => tell(answer, "none"),
    }
}

// Writes the items, with a bar between nodes.
fn tell_nodes<T: Word>(spine: &Spine<T>, answer: &mut String) -> Result<(), Stop> {
    let mut node = 0;
    for i in 0..spine.len() {
        if let Some(spot) = spine.spot(i) {
            if node < spot.node {
                node = spot.node;
                tell(answer, "|")?;
            }
            tell(answer, spine.item(&spot))?;
        }
    }
    Ok(())
}

fn walk_all<T: Word>(
    items: Iter<'_, T>,
    words: &mut SplitWhitespace<'_>,
    answer: &mut String,
) -> Result<(), Stop> {
    walk!(items, words, answer, tell_option)
}

fn walk_owned<T: Word>(
    spine: Spine<T>,
    words: &mut SplitWhitespace<'_>,
    answer: &mut String,
) -> Result<(), Stop> {
    walk!(spine.into_iter(), words, answer, tell_option)
}

impl<T: Word> Swept for Spines<T> {
    fn make(alloc: Global, size: usize) -> Result<Self, Stop> {
        Ok(Spines {
            alloc,
            size,
            spine: empty(alloc, size)?,
            other: empty(alloc, size)?,
            list: Vec::new(alloc),
        })
    }

    fn show(&self, text: &mut String) -> Result<(), Stop> {
        for spine in [&self.spine, &self.other] {
            let nodes = spine.node_count();
            write!(text, " {nodes} of {}:", spine.maximum_node_size())?;
            tell_nodes(spine, text)?;
        }
        for item in &self.list {
            tell(text, item)?;
        }
        Ok(())
    }

    fn part(
        &mut self,
        name: &str,
        _words: &mut SplitWhitespace<'_>,
        _number: usize,
    ) -> Result<bool, Stop> {
        let next = match name {
            "append" => match self.other.first_spot() {
                Some(spot) => Some(self.other.remove(spot)),
                None => None,
            },
            "append_items" if !self.list.is_empty() => Some(self.list.remove(0)),
            _ => None,
        };
        match next {
            Some(item) => {
                let end = self.spine.end();
                self.spine.insert(end, item)?;
                Ok(true)
            }
            None => Ok(false),
        }
    }
}

impl<T: Word> Subject for Spines<T> {
    fn call(
        &mut self,
        name: &str,
        words: &mut SplitWhitespace<'_>,
        answer: &mut String,
    ) -> Result<(), Stop> {
        match name {
            "spine" => self.fill(words),
            "size" => {
                self.size = read(words)?;
                Ok(())
            }
            "list" => {
                self.list = items(self.alloc, words)?;
                Ok(())
            }
            "clone" => {
                self.other = self.spine.clone()?;
                Ok(())
            }
            "swap" => {
                mem::swap(&mut self.spine, &mut self.other);
                Ok(())
            }
            "clear" => {
                self.spine.clear();
                Ok(())
            }
            "append" => Ok(self.spine.append(&mut self.other)?),
            "append_items" => Ok(self.spine.append_items(&mut self.list)?),
            _ => self.edit(name, words, answer),
        }
    }
}

impl<T: Word> Spines<T> {
    // Makes a spine of the words, appended in order.
    fn fill(&mut self, words: &mut SplitWhitespace<'_>) -> Result<(), Stop> {
        let mut spine = empty(self.alloc, self.size)?;
        for word in words {
            let item = T::of(self.alloc, word)?;
            let end = spine.end();
            spine.insert(end, item)?;
        }
        self.spine = spine;
        Ok(())
    }

    fn edit(
        &mut self,
        name: &str,
        words: &mut SplitWhitespace<'_>,
        answer: &mut String,
    ) -> Result<(), Stop> {
        match name {
            "insert" => self.insert(words, answer),
            "insert_from" => self.insert_from(words),
            "remove" | "replace" => self.edit_at(name, words, answer),
            "get_mut" => self.overwrite(words, answer),
            "split_off" => self.split_off(words),
            "retain" => self.retain(words, answer),
            _ => self.look(name, words, answer),
        }
    }

    fn insert(&mut self, words: &mut SplitWhitespace<'_>, answer: &mut String) -> Result<(), Stop> {
        let spot = spot_of(&self.spine, words)?;
        let word = words.next().ok_or(Stop::Word)?;
        let item = T::of(self.alloc, word)?;
        let spot = given(self.alloc, word, self.spine.insert(spot, item))?;
        tell_spot(answer, Some(spot))
    }

    fn insert_from(&mut self, words: &mut SplitWhitespace<'_>) -> Result<(), Stop> {
        let spot = spot_of(&self.spine, words)?;
        if self.other.len() == 0 {
            return Err(Stop::NoCall);
        }
        Ok(self.spine.insert_from(spot, &mut self.other)?)
    }

    // Changes the item at a position.
    fn edit_at(
        &mut self,
        name: &str,
        words: &mut SplitWhitespace<'_>,
        answer: &mut String,
    ) -> Result<(), Stop> {
        let spot = self.spine.spot(read(words)?).ok_or(Stop::NoCall)?;
        if name == "remove" {
            return tell(answer, self.spine.remove(spot));
        }
        let item = item(self.alloc, words)?;
        tell(answer, self.spine.replace(spot, item))
    }

    // Replaces the item at a position, and writes the old one.
    fn overwrite(
        &mut self,
        words: &mut SplitWhitespace<'_>,
        answer: &mut String,
    ) -> Result<(), Stop> {
        let i = read(words)?;
        let item = item(self.alloc, words)?;
        match self.spine.get_mut(i) {
            Some(held) => {
                tell(answer, &*held)?;
                *held = item;
                Ok(())
            }
            None => tell(answer, "none"),
        }
    }

    fn split_off(&mut self, words: &mut SplitWhitespace<'_>) -> Result<(), Stop> {
        let spot = spot_of(&self.spine, words)?;
        self.other = self.spine.split_off(spot)?;
        Ok(())
    }

    // Replaces the items by those of the words, retains every other one, and none without a word.
    // Writes the items that the closure is called with.
    fn retain(&mut self, words: &mut SplitWhitespace<'_>, answer: &mut String) -> Result<(), Stop> {
        let new: Vec<T> = items(self.alloc, words)?;
        let mut new = new.into_iter();
        let mut keeps = false;
        let mut told = Ok(());
        self.spine.retain_mut(|item| {
            if told.is_ok() {
                told = write!(answer, " {item}");
            }
            keeps = !keeps;
            match new.next() {
                Some(next) => {
                    *item = next;
                    keeps
                }
                None => false,
            }
        });
        Ok(told?)
    }

    fn look(
        &mut self,
        name: &str,
        words: &mut SplitWhitespace<'_>,
        answer: &mut String,
    ) -> Result<(), Stop> {
        match name {
            "len" => tell(answer, self.spine.len()),
            "node_count" => tell(answer, self.spine.node_count()),
            "maximum_node_size" => tell(answer, self.spine.maximum_node_size()),
            "nodes" => tell_nodes(&self.spine, answer),
            "get" => tell_option(answer, self.spine.get(read(words)?)),
            "spot" => tell_spot(answer, self.spine.spot(read(words)?)),
            "first_spot" => tell_spot(answer, self.spine.first_spot()),
            "last_spot" => tell_spot(answer, self.spine.last_spot()),
            "position" => self.position(words, answer),
            "item_from" => {
                let spot = spot_of(&self.spine, words)?;
                tell_option(answer, self.spine.item_from(&spot))
            }
            "iter" => walk_all(self.spine.iter(), words, answer),
            "ref_iter" => walk_all((&self.spine).into_iter(), words, answer),
            "into_iter" => walk_owned(self.spine.clone()?, words, answer),
            "iter_between" => self.walk_part(words, answer),
            _ => Err(Stop::NoCall),
        }
    }

    fn position(&self, words: &mut SplitWhitespace<'_>, answer: &mut String) -> Result<(), Stop> {
        let spot = spot_of(&self.spine, words)?;
        tell(answer, self.spine.position(&spot))
    }

    fn walk_part(&self, words: &mut SplitWhitespace<'_>, answer: &mut String) -> Result<(), Stop> {
        let start = read(words)?;
        let end = read(words)?;
        if end < start || self.spine.len() < end {
            return Err(Stop::NoCall);
        }
        for item in self.spine.iter_between(start, end) {
            tell(answer, item)?;
        }
        Ok(())
    }
}
