//! Two maps; most calls use the first. A pair is a word such as `1:a`.

use crate::plain::lent;
use crate::plain::walks::tell_pair;
use indexset_core::refusal::{Refusal, Refused};
use indexset_map::BTreeMap;
use std::alloc::Global;
use std::mem;
use std::str::SplitWhitespace;
use test_script::player::Swept;
use test_script::script::{Stop, Subject, read, refused, tell, tell_option};
use test_script::word::{Word, item};

mod reads;

#[derive(Drop)]
pub struct Maps<K: Word, V: Word> {
    alloc: Global,
    size: usize,
    map: BTreeMap<K, V>,
    other: BTreeMap<K, V>,
}

/// Reads a pair.
pub fn pair<K: Word, V: Word>(alloc: Global, word: &str) -> Result<(K, V), Stop> {
    let (key, value) = word.rsplit_once(':').ok_or(Stop::Word)?;
    Ok((K::of(alloc, key)?, V::of(alloc, value)?))
}

// Reads the pairs of the remaining words.
fn pairs<K: Word, V: Word>(
    alloc: Global,
    words: &mut SplitWhitespace<'_>,
) -> Result<Vec<(K, V)>, Stop> {
    let mut pairs = Vec::new(alloc);
    for word in words {
        pairs.push(pair(alloc, word)?)?;
    }
    Ok(pairs)
}

// Returns `count` numbers, each with itself as value and greater by `step` than the one before.
fn numbered<K: Word, V: Word>(alloc: Global, count: u64, step: u64) -> Result<Vec<(K, V)>, Stop> {
    let mut pairs = Vec::new(alloc);
    for number in 0..count {
        let number = number.saturating_mul(step);
        pairs.push((K::numbered(alloc, number)?, V::numbered(alloc, number)?))?;
    }
    Ok(pairs)
}

// Returns the result of a call, or its refusal, which must return the pair of a word.
fn given<X: Drop, K: Word, V: Word>(
    alloc: Global,
    word: &str,
    made: Result<X, Refused<(K, V)>>,
) -> Result<X, Stop> {
    match made {
        Ok(made) => Ok(made),
        Err(Refused { value, cause }) => {
            let (key, value) = value;
            if format!(in alloc; "{key}:{value}")?.as_str() == word {
                Err(Stop::Refused(cause))
            } else {
                Err(Stop::Otherwise)
            }
        }
    }
}

// Returns an empty map.
fn empty<K: Word, V: Word>(alloc: Global, size: usize) -> Result<BTreeMap<K, V>, Stop> {
    if size < 2 {
        return Err(Stop::NoCall);
    }
    Ok(BTreeMap::with_maximum_node_size(alloc, size)?)
}

// Writes a refusal with what it returns: all pairs if the keys do not ascend, and none if an
// allocation fails.
fn from_sorted<K: Word, V: Word>(
    alloc: Global,
    pairs: Vec<(K, V)>,
    answer: &mut String,
) -> Result<BTreeMap<K, V>, Stop> {
    match BTreeMap::from_sorted(alloc, pairs) {
        Ok(map) => Ok(map),
        Err(Refused { value, cause }) => {
            if cause == Refusal::Memory && !value.is_empty() {
                return Err(Stop::Otherwise);
            }
            for (key, value) in &value {
                write!(answer, " {key}:{value}")?;
            }
            Err(Stop::Refused(cause))
        }
    }
}

/// Writes the pairs, with a bar between nodes.
pub fn tell_nodes<K: Word, V: Word>(map: &BTreeMap<K, V>, answer: &mut String) -> Result<(), Stop> {
    let mut copy = map.clone()?;
    for _ in 0..copy.len() {
        let nodes = copy.node_count();
        tell_pair(answer, copy.pop_first())?;
        // A node is removed with its last pair, unless it is the only node.
        if copy.node_count() < nodes {
            tell(answer, "|")?;
        }
    }
    Ok(())
}

impl<K: Word, V: Word> Swept for Maps<K, V> {
    fn make(alloc: Global, size: usize) -> Result<Self, Stop> {
        Ok(Maps {
            alloc,
            size,
            map: empty(alloc, size)?,
            other: empty(alloc, size)?,
        })
    }

    fn show(&self, text: &mut String) -> Result<(), Stop> {
        for map in [&self.map, &self.other] {
            write!(text, " of {}:", map.maximum_node_size())?;
            tell_nodes(map, text)?;
        }
        Ok(())
    }

    fn part(
        &mut self,
        name: &str,
        words: &mut SplitWhitespace<'_>,
        number: usize,
    ) -> Result<bool, Stop> {
        let next = match name {
            "append" => self.other.pop_first(),
            "extend" => match words.nth(number) {
                Some(word) => Some(pair(self.alloc, word)?),
                None => None,
            },
            _ => None,
        };
        match next {
            Some((key, value)) => {
                self.map.remove(&key);
                self.map.insert(key, value)?;
                Ok(true)
            }
            None => Ok(false),
        }
    }
}

impl<K: Word, V: Word> Subject for Maps<K, V> {
    fn call(
        &mut self,
        name: &str,
        words: &mut SplitWhitespace<'_>,
        answer: &mut String,
    ) -> Result<(), Stop> {
        match name {
            "map" => self.fill(words),
            "fill" => self.fill_by(words),
            "size" => {
                self.size = read(words)?;
                Ok(())
            }
            "new" => self.put(BTreeMap::new(self.alloc)?),
            "default" => self.put(BTreeMap::default(self.alloc)?),
            "from" | "from_iter" | "collect" | "from_unsorted" | "from_sorted" => {
                self.make_of(name, words, answer)
            }
            "clone" => {
                self.other = self.map.clone()?;
                Ok(())
            }
            "clone_of_the_trait" => {
                self.other = refused(Clone::clone(&self.map))?;
                Ok(())
            }
            "swap" => {
                mem::swap(&mut self.map, &mut self.other);
                Ok(())
            }
            _ => self.edit(name, words, answer),
        }
    }
}

impl<K: Word, V: Word> Maps<K, V> {
    fn put(&mut self, map: BTreeMap<K, V>) -> Result<(), Stop> {
        self.map = map;
        Ok(())
    }

    // Makes a map of the pairs, inserted in order.
    fn fill(&mut self, words: &mut SplitWhitespace<'_>) -> Result<(), Stop> {
        let mut map = empty(self.alloc, self.size)?;
        for word in words {
            let (key, value) = pair(self.alloc, word)?;
            map.insert(key, value)?;
        }
        self.put(map)
    }

    // Makes a map with the named call. The second word is the number of pairs, and the third the
    // step between keys; each value is its key.
    fn fill_by(&mut self, words: &mut SplitWhitespace<'_>) -> Result<(), Stop> {
        let name = words.next().ok_or(Stop::Word)?;
        let pairs = numbered(self.alloc, read(words)?, read(words)?)?;
        let map = match name {
            "insert" => {
                let mut map = empty(self.alloc, self.size)?;
                for (key, value) in pairs {
                    map.insert(key, value)?;
                }
                map
            }
            "from_iter" => BTreeMap::from_iter(self.alloc, pairs)?,
            "from" => BTreeMap::from(self.alloc, pairs)?,
            "from_sorted" => BTreeMap::from_sorted(self.alloc, pairs)?,
            _ => return Err(Stop::NoCall),
        };
        self.put(map)
    }

    // Makes a map of the pairs of the words.
    fn make_of(
        &mut self,
        name: &str,
        words: &mut SplitWhitespace<'_>,
        answer: &mut String,
    ) -> Result<(), Stop> {
        let pairs = pairs(self.alloc, words)?;
        self.map = match name {
            "from" => BTreeMap::from(self.alloc, pairs)?,
            "from_iter" => BTreeMap::from_iter(self.alloc, pairs)?,
            "collect" => refused(pairs.into_iter().collect(self.alloc))?,
            "from_unsorted" => BTreeMap::from_unsorted(self.alloc, pairs)?,
            _ => from_sorted(self.alloc, pairs, answer)?,
        };
        Ok(())
    }

    fn edit(
        &mut self,
        name: &str,
        words: &mut SplitWhitespace<'_>,
        answer: &mut String,
    ) -> Result<(), Stop> {
        match name {
            "insert" => self.insert(words, answer),
            "remove" => tell_option(answer, self.map.remove(&item(self.alloc, words)?)),
            "remove_entry" => tell_pair(answer, self.map.remove_entry(&item(self.alloc, words)?)),
            "pop_first" => tell_pair(answer, self.map.pop_first()),
            "pop_last" => tell_pair(answer, self.map.pop_last()),
            "pop_index" => self.pop_index(words, answer),
            "clear" => {
                self.map.clear();
                Ok(())
            }
            "split_off" => {
                self.other = self.map.split_off(&item(self.alloc, words)?)?;
                Ok(())
            }
            "append" => Ok(self.map.append(&mut self.other)?),
            "extend" => refused(self.map.extend(pairs(self.alloc, words)?)),
            _ => self.write(name, words, answer),
        }
    }

    fn insert(&mut self, words: &mut SplitWhitespace<'_>, answer: &mut String) -> Result<(), Stop> {
        let word = words.next().ok_or(Stop::Word)?;
        let (key, value) = pair(self.alloc, word)?;
        let made = self.map.insert(key, value);
        tell_option(answer, given(self.alloc, word, made)?)
    }

    fn pop_index(
        &mut self,
        words: &mut SplitWhitespace<'_>,
        answer: &mut String,
    ) -> Result<(), Stop> {
        let i = read(words)?;
        if self.map.len() <= i {
            return Err(Stop::NoCall);
        }
        tell_pair(answer, Some(self.map.pop_index(i)))
    }

    // Makes the calls that return mutable references.
    fn write(
        &mut self,
        name: &str,
        words: &mut SplitWhitespace<'_>,
        answer: &mut String,
    ) -> Result<(), Stop> {
        let alloc = self.alloc;
        match name {
            "get_mut" => {
                let key = item(alloc, words)?;
                lent::overwrite(alloc, self.map.get_mut(&key), words, answer)
            }
            "get_mut_index" => {
                let i = read(words)?;
                lent::overwrite(alloc, self.map.get_mut_index(i), words, answer)
            }
            "retain" => lent::retain(alloc, &mut self.map, words, answer),
            _ => self.look_up(name, words, answer),
        }
    }
}
