//! Items that are equal by their order, but differ.

use std::fmt;

/// A key with a tag that its order ignores.
#[derive(Clone, Copy, Debug)]
#[derive_where(PartialEq, Eq, PartialOrd, Ord, Hash)]
pub struct Tagged {
    pub key: u64,
    #[derive_where(skip(EqHashOrd))]
    pub tag: char,
}

/// The key, a colon and the tag.
impl fmt::Display for Tagged {
    fn fmt<W: fmt::Write>(&self, f: &mut fmt::Formatter<W>) -> fmt::Result {
        let Tagged { key, tag } = self;
        write!(f, "{key}:{tag}")
    }
}
