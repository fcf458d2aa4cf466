//! Two sets; most calls use the first.

use indexset_core::refusal::{Refusal, Refused};
use indexset_set::BTreeSet;
use std::alloc::Global;
use std::mem;
use std::str::SplitWhitespace;
use test_script::player::Swept;
use test_script::script::{Stop, Subject, given, read, refused, tell, tell_option};
use test_script::word::{Word, item, items};

mod reads;

#[derive(Drop)]
pub struct Sets<T: Word> {
    alloc: Global,
    size: usize,
    set: BTreeSet<T>,
    other: BTreeSet<T>,
}

// Returns an empty set.
fn empty<T: Word>(alloc: Global, size: usize) -> Result<BTreeSet<T>, Stop> {
    if size < 2 {
        return Err(Stop::NoCall);
    }
    Ok(BTreeSet::with_maximum_node_size(alloc, size)?)
}

// Returns `count` numbers, each greater by `step` than the one before.
fn numbered<T: Word>(alloc: Global, count: u64, step: u64) -> Result<Vec<T>, Stop> {
    let mut numbers = Vec::new(alloc);
    for number in 0..count {
        numbers.push(T::numbered(alloc, number.saturating_mul(step))?)?;
    }
    Ok(numbers)
}

// Writes the elements, with a bar between nodes.
fn tell_nodes<T: Word>(set: &BTreeSet<T>, answer: &mut String) -> Result<(), Stop> {
    let mut copy = set.clone()?;
    for _ in 0..copy.len() {
        let nodes = copy.node_count();
        tell_option(answer, copy.pop_first())?;
        // A node is removed with its last element, unless it is the only node.
        if copy.node_count() < nodes {
            tell(answer, "|")?;
        }
    }
    Ok(())
}

impl<T: Word> Swept for Sets<T> {
    fn make(alloc: Global, size: usize) -> Result<Self, Stop> {
        Ok(Sets {
            alloc,
            size,
            set: empty(alloc, size)?,
            other: empty(alloc, size)?,
        })
    }

    fn show(&self, text: &mut String) -> Result<(), Stop> {
        for set in [&self.set, &self.other] {
            write!(text, " of {}:", set.maximum_node_size())?;
            tell_nodes(set, text)?;
        }
        Ok(())
    }

    fn part(
        &mut self,
        name: &str,
        words: &mut SplitWhitespace<'_>,
        number: usize,
    ) -> Result<bool, Stop> {
        let next = match name {
            "append" => self.other.pop_first(),
            "extend" => match words.nth(number) {
                Some(word) => Some(T::of(self.alloc, word)?),
                None => None,
            },
            _ => None,
        };
        match next {
            Some(item) => {
                self.set.replace(item)?;
                Ok(true)
            }
            None => Ok(false),
        }
    }
}

impl<T: Word> Subject for Sets<T> {
    fn call(
        &mut self,
        name: &str,
        words: &mut SplitWhitespace<'_>,
        answer: &mut String,
    ) -> Result<(), Stop> {
        match name {
            "set" => self.fill(words),
            "fill" => self.fill_by(words),
            "size" => {
                self.size = read(words)?;
                Ok(())
            }
            "new" => self.put(BTreeSet::new(self.alloc)?),
            "default" => self.put(BTreeSet::default(self.alloc)?),
            "from" => self.put(BTreeSet::from(self.alloc, items(self.alloc, words)?)?),
            "from_iter" => self.put(BTreeSet::from_iter(self.alloc, items(self.alloc, words)?)?),
            "collect" => self.collect(words),
            "from_unsorted" => {
                self.put(BTreeSet::from_unsorted(self.alloc, items(self.alloc, words)?)?)
            }
            "from_sorted" => self.from_sorted(words, answer),
            "clone" => {
                self.other = self.set.clone()?;
                Ok(())
            }
            "clone_of_the_trait" => {
                self.other = refused(Clone::clone(&self.set))?;
                Ok(())
            }
            "swap" => {
                mem::swap(&mut self.set, &mut self.other);
                Ok(())
            }
            _ => self.edit(name, words, answer),
        }
    }
}

impl<T: Word> Sets<T> {
    fn put(&mut self, set: BTreeSet<T>) -> Result<(), Stop> {
        self.set = set;
        Ok(())
    }

    // Makes a set of the words, inserted in order.
    fn fill(&mut self, words: &mut SplitWhitespace<'_>) -> Result<(), Stop> {
        let mut set = empty(self.alloc, self.size)?;
        for word in words {
            set.insert(T::of(self.alloc, word)?)?;
        }
        self.put(set)
    }

    // Makes a set with the named call. The second word is the number of elements, and the third the
    // step between them.
    fn fill_by(&mut self, words: &mut SplitWhitespace<'_>) -> Result<(), Stop> {
        let name = words.next().ok_or(Stop::Word)?;
        let numbers = numbered(self.alloc, read(words)?, read(words)?)?;
        let set = match name {
            "insert" => {
                let mut set = empty(self.alloc, self.size)?;
                for item in numbers {
                    set.insert(item)?;
                }
                set
            }
            "from_iter" => BTreeSet::from_iter(self.alloc, numbers)?,
            "from" => BTreeSet::from(self.alloc, numbers)?,
            "from_reversed" => {
                let reversed: Vec<T> = numbers.into_iter().rev().collect(self.alloc)?;
                BTreeSet::from(self.alloc, reversed)?
            }
            _ => return Err(Stop::NoCall),
        };
        self.put(set)
    }

    fn collect(&mut self, words: &mut SplitWhitespace<'_>) -> Result<(), Stop> {
        let items: Vec<T> = items(self.alloc, words)?;
        self.put(refused(items.into_iter().collect(self.alloc))?)
    }

    // Writes a refusal with what it returns: all elements if they do not ascend, and none if an
    // allocation fails.
    fn from_sorted(
        &mut self,
        words: &mut SplitWhitespace<'_>,
        answer: &mut String,
    ) -> Result<(), Stop> {
        match BTreeSet::from_sorted(self.alloc, items(self.alloc, words)?) {
            Ok(set) => self.put(set),
            Err(Refused { value, cause }) => {
                if cause == Refusal::Memory && !value.is_empty() {
                    return Err(Stop::Otherwise);
                }
                for item in &value {
                    tell(answer, item)?;
                }
                Err(Stop::Refused(cause))
            }
        }
    }

    fn edit(
        &mut self,
        name: &str,
        words: &mut SplitWhitespace<'_>,
        answer: &mut String,
    ) -> Result<(), Stop> {
        match name {
            "insert" => self.insert(words, answer),
            "replace" => self.replace(words, answer),
            "take" => tell_option(answer, self.set.take(&item(self.alloc, words)?)),
            "remove" => tell(answer, self.set.remove(&item(self.alloc, words)?)),
            "pop_first" => tell_option(answer, self.set.pop_first()),
            "pop_last" => tell_option(answer, self.set.pop_last()),
            "clear" => {
                self.set.clear();
                Ok(())
            }
            "split_off" => {
                self.other = self.set.split_off(&item(self.alloc, words)?)?;
                Ok(())
            }
            "split_off_index" => self.split_off_index(words),
            "append" => Ok(self.set.append(&mut self.other)?),
            "extend" => refused(self.set.extend(items(self.alloc, words)?)),
            "retain" => self.retain(words, answer),
            _ => self.look_up(name, words, answer),
        }
    }

    fn insert(&mut self, words: &mut SplitWhitespace<'_>, answer: &mut String) -> Result<(), Stop> {
        let word = words.next().ok_or(Stop::Word)?;
        let made = self.set.insert(T::of(self.alloc, word)?);
        tell(answer, given(self.alloc, word, made)?)
    }

    fn replace(
        &mut self,
        words: &mut SplitWhitespace<'_>,
        answer: &mut String,
    ) -> Result<(), Stop> {
        let word = words.next().ok_or(Stop::Word)?;
        let made = self.set.replace(T::of(self.alloc, word)?);
        tell_option(answer, given(self.alloc, word, made)?)
    }

    fn split_off_index(&mut self, words: &mut SplitWhitespace<'_>) -> Result<(), Stop> {
        let i = read(words)?;
        if self.set.len() < i {
            return Err(Stop::NoCall);
        }
        self.other = self.set.split_off_index(i)?;
        Ok(())
    }

    // Retains the elements of the words, and writes those that the closure is called with.
    fn retain(&mut self, words: &mut SplitWhitespace<'_>, answer: &mut String) -> Result<(), Stop> {
        let kept: Vec<T> = items(self.alloc, words)?;
        let mut told = Ok(());
        self.set.retain(|item| {
            if told.is_ok() {
                told = write!(answer, " {item}");
            }
            kept.contains(item)
        });
        Ok(told?)
    }
}
