//! The texts of integers: the plain decimal, after a minus if the number is negative.
ghost use Rattle.std.specs.Prelude.{◌^◌, false, refl};
ghost use Rattle.indexset_wire.specs.Texts.{below_items, below_texts, below_tokens};
ghost use Rattle.indexset_wire.specs.Texts.{number_items, number_texts, number_tokens};
ghost use Rattle.indexset_wire.specs.Texts.{signed_items, signed_texts, signed_tokens};

use crate::item::{Item, Token};
use crate::number::{read_below, read_number, signed_text, write_number};
use std::alloc::{AllocError, Global};
use std::io::{self, Write};

impl Item for u8 {
    ghost texts = { below_texts (2 ^ 8) };

    ghost allocates = { false };

    ghost items = { below_items (2 ^ 8) refl };

    fn read(_alloc: Global, text: &[u8]) -> Result<Option<u8>, AllocError> {
        match read_below(text, 1 << 8) {
            Some(number) => Ok(Some(number as u8)),
            None => Ok(None),
        }
    }

    fn write<W: Write>(&self, writer: &mut W) -> io::Result<()> {
        write_number(writer, *self as u64)
    }

    fn recall_range(&self) {
        let _number = *self;
    }
}

impl Token for u8 {
    ghost tokens = { below_tokens (2 ^ 8) refl };
}

impl Item for u16 {
    ghost texts = { below_texts (2 ^ 16) };

    ghost allocates = { false };

    ghost items = { below_items (2 ^ 16) refl };

    fn read(_alloc: Global, text: &[u8]) -> Result<Option<u16>, AllocError> {
        match read_below(text, 1 << 16) {
            Some(number) => Ok(Some(number as u16)),
            None => Ok(None),
        }
    }

    fn write<W: Write>(&self, writer: &mut W) -> io::Result<()> {
        write_number(writer, *self as u64)
    }

    fn recall_range(&self) {
        let _number = *self;
    }
}

impl Token for u16 {
    ghost tokens = { below_tokens (2 ^ 16) refl };
}

impl Item for u32 {
    ghost texts = { below_texts (2 ^ 32) };

    ghost allocates = { false };

    ghost items = { below_items (2 ^ 32) refl };

    fn read(_alloc: Global, text: &[u8]) -> Result<Option<u32>, AllocError> {
        match read_below(text, 1 << 32) {
            Some(number) => Ok(Some(number as u32)),
            None => Ok(None),
        }
    }

    fn write<W: Write>(&self, writer: &mut W) -> io::Result<()> {
        write_number(writer, *self as u64)
    }

    fn recall_range(&self) {
        let _number = *self;
    }
}

impl Token for u32 {
    ghost tokens = { below_tokens (2 ^ 32) refl };
}

impl Item for u64 {
    ghost texts = { number_texts };

    ghost allocates = { false };

    ghost items = { number_items };

    fn read(_alloc: Global, text: &[u8]) -> Result<Option<u64>, AllocError> {
        Ok(read_number(text))
    }

    fn write<W: Write>(&self, writer: &mut W) -> io::Result<()> {
        write_number(writer, *self)
    }

    fn recall_range(&self) {
        let _number = *self;
    }
}

impl Token for u64 {
    ghost tokens = { number_tokens };
}

impl Item for usize {
    ghost texts = { number_texts };

    ghost allocates = { false };

    ghost items = { number_items };

    fn read(_alloc: Global, text: &[u8]) -> Result<Option<usize>, AllocError> {
        Ok(read_number(text).map(|number| number as usize))
    }

    fn write<W: Write>(&self, writer: &mut W) -> io::Result<()> {
        write_number(writer, *self as u64)
    }

    fn recall_range(&self) {
        let _number = *self;
    }
}

impl Token for usize {
    ghost tokens = { number_tokens };
}

impl Item for i8 {
    ghost texts = { signed_texts (2 ^ 7) };

    ghost allocates = { false };

    ghost items = { signed_items (2 ^ 7) refl };

    fn read(_alloc: Global, text: &[u8]) -> Result<Option<i8>, AllocError> {
        match signed_text(text, 1 << 7) {
            Some(plain) => Ok(plain.parse().ok()),
            None => Ok(None),
        }
    }

    fn write<W: Write>(&self, writer: &mut W) -> io::Result<()> {
        write!(writer, "{self}")
    }

    fn recall_range(&self) {
        let _number = *self;
    }
}

impl Token for i8 {
    ghost tokens = { signed_tokens (2 ^ 7) refl };
}

impl Item for i16 {
    ghost texts = { signed_texts (2 ^ 15) };

    ghost allocates = { false };

    ghost items = { signed_items (2 ^ 15) refl };

    fn read(_alloc: Global, text: &[u8]) -> Result<Option<i16>, AllocError> {
        match signed_text(text, 1 << 15) {
            Some(plain) => Ok(plain.parse().ok()),
            None => Ok(None),
        }
    }

    fn write<W: Write>(&self, writer: &mut W) -> io::Result<()> {
        write!(writer, "{self}")
    }

    fn recall_range(&self) {
        let _number = *self;
    }
}

impl Token for i16 {
    ghost tokens = { signed_tokens (2 ^ 15) refl };
}

impl Item for i32 {
    ghost texts = { signed_texts (2 ^ 31) };

    ghost allocates = { false };

    ghost items = { signed_items (2 ^ 31) refl };

    fn read(_alloc: Global, text: &[u8]) -> Result<Option<i32>, AllocError> {
        match signed_text(text, 1 << 31) {
            Some(plain) => Ok(plain.parse().ok()),
            None => Ok(None),
        }
    }

    fn write<W: Write>(&self, writer: &mut W) -> io::Result<()> {
        write!(writer, "{self}")
    }

    fn recall_range(&self) {
        let _number = *self;
    }
}

impl Token for i32 {
    ghost tokens = { signed_tokens (2 ^ 31) refl };
}

impl Item for i64 {
    ghost texts = { signed_texts (2 ^ 63) };

    ghost allocates = { false };

    ghost items = { signed_items (2 ^ 63) refl };

    fn read(_alloc: Global, text: &[u8]) -> Result<Option<i64>, AllocError> {
        match signed_text(text, 1 << 63) {
            Some(plain) => Ok(plain.parse().ok()),
            None => Ok(None),
        }
    }

    fn write<W: Write>(&self, writer: &mut W) -> io::Result<()> {
        write!(writer, "{self}")
    }

    fn recall_range(&self) {
        let _number = *self;
    }
}

impl Token for i64 {
    ghost tokens = { signed_tokens (2 ^ 63) refl };
}

impl Item for isize {
    ghost texts = { signed_texts (2 ^ 63) };

    ghost allocates = { false };

    ghost items = { signed_items (2 ^ 63) refl };

    fn read(_alloc: Global, text: &[u8]) -> Result<Option<isize>, AllocError> {
        match signed_text(text, 1 << 63) {
            Some(plain) => Ok(plain.parse().ok()),
            None => Ok(None),
        }
    }

    fn write<W: Write>(&self, writer: &mut W) -> io::Result<()> {
        write!(writer, "{self}")
    }

    fn recall_range(&self) {
        let _number = *self;
    }
}

impl Token for isize {
    ghost tokens = { signed_tokens (2 ^ 63) refl };
}
