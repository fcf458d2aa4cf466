//! An iterator with a wrong size hint.
ghost use Rattle.std.specs.Prelude.{◌+◌};
ghost use Rattle.std.specs.Iterator.{at_most};

/// Yields the numbers from the first down to 1, with a lower bound of `claim` as size hint.
#[derive(Drop)]
pub struct Misled {
    pub first: u64,
    pub claim: usize,
}

impl Iterator for Misled {
    type Item = u64;

    ghost remaining = { λ s. at_most (s.first + s.claim) };

    fn next(&mut self) -> Option<u64> {
        let number = self.first;
        self.first = number.checked_sub(1)?;
        Some(number)
    }

    fn size_hint(&self) -> (usize, Option<usize>) {
        (self.claim, None)
    }
}
