//! An index of lengths.

use indexset_index::fenwick::Fenwick;
use indexset_index::fenwick::cells::Cells;
use std::alloc::Global;
use std::str::SplitWhitespace;
use test_script::player::Swept;
use test_script::script::{Stop, Subject, read, tell};

#[derive(Drop)]
pub struct Indexes {
    alloc: Global,
    index: Fenwick,
}

impl Indexes {
    fn tell_cells(&self, answer: &mut String) -> Result<(), Stop> {
        for i in 0..self.index.len() {
            tell(answer, self.index.cells().read(i + 1))?;
        }
        Ok(())
    }

    // Makes an index of three lengths, the words.
    fn make_of_three(&mut self, words: &mut SplitWhitespace<'_>) -> Result<(), Stop> {
        let first: u32 = read(words)?;
        let second: u32 = read(words)?;
        let third: u32 = read(words)?;
        let lengths = [first as usize, second as usize, third as usize];
        self.index = Fenwick::from_lengths(self.alloc, &lengths)?;
        Ok(())
    }
}

impl Swept for Indexes {
    fn make(alloc: Global, _size: usize) -> Result<Self, Stop> {
        let index = Fenwick::with_capacity(alloc, 0)?;
        Ok(Indexes { alloc, index })
    }

    fn show(&self, text: &mut String) -> Result<(), Stop> {
        self.tell_cells(text)
    }

    fn part(
        &mut self,
        _name: &str,
        _words: &mut SplitWhitespace<'_>,
        _number: usize,
    ) -> Result<bool, Stop> {
        Ok(false)
    }
}

impl Subject for Indexes {
    fn call(
        &mut self,
        name: &str,
        words: &mut SplitWhitespace<'_>,
        answer: &mut String,
    ) -> Result<(), Stop> {
        match name {
            "with_capacity" => {
                self.index = Fenwick::with_capacity(self.alloc, read(words)?)?;
                Ok(())
            }
            "from_lengths" => self.make_of_three(words),
            "reserve_one" => Ok(self.index.reserve_one()?),
            "reserve" => Ok(self.index.reserve(read(words)?)?),
            "len" => tell(answer, self.index.len()),
            "cells" => self.tell_cells(answer),
            _ => Err(Stop::NoCall),
        }
    }
}
