//! The texts of pairs: `key:value`, and `key:number:value` of a numbered pair.
ghost use Rattle.std.specs.Prelude.{◌||◌};
ghost use Rattle.indexset_wire.specs.Pairs.{multi_pair_texts, pair_texts};
ghost use Rattle.indexset_wire.specs.Pairs.Laws.{multi_pair_items, pair_items};

use crate::item::{Item, Token};
use crate::number::{read_number, write_number};
use crate::parts::cut;
use indexset_core::multipair::MultiPair;
use indexset_core::pair::Pair;
use std::alloc::{AllocError, Global};
use std::io::{self, Write};

impl<K: Token, V: Token> Item for Pair<K, V> {
    ghost texts = { pair_texts K.texts V.texts };

    ghost allocates = { K.allocates || V.allocates };

    ghost items = { pair_items K.texts V.texts K.tokens V.tokens };

    fn read(alloc: Global, text: &[u8]) -> Result<Option<Pair<K, V>>, AllocError> {
        let Some((key, value)) = cut(text, b':') else {
            return Ok(None);
        };
        let Some(key) = K::read(alloc, key)? else {
            return Ok(None);
        };
        let Some(value) = V::read(alloc, value)? else {
            return Ok(None);
        };
        Ok(Some(Pair { key, value }))
    }

    fn write<W: Write>(&self, writer: &mut W) -> io::Result<()> {
        self.key.write(writer)?;
        writer.write_all(b":")?;
        self.value.write(writer)
    }

    fn recall_range(&self) {
        self.key.recall_range();
        self.value.recall_range();
    }
}

impl<K: Token, V: Token> Item for MultiPair<K, V> {
    ghost texts = { multi_pair_texts K.texts V.texts };

    ghost allocates = { K.allocates || V.allocates };

    ghost items = { multi_pair_items K.texts V.texts K.tokens V.tokens };

    fn read(alloc: Global, text: &[u8]) -> Result<Option<MultiPair<K, V>>, AllocError> {
        let Some((key, rest)) = cut(text, b':') else {
            return Ok(None);
        };
        let Some(key) = K::read(alloc, key)? else {
            return Ok(None);
        };
        let Some((digits, value)) = cut(rest, b':') else {
            return Ok(None);
        };
        let Some(discriminator) = read_number(digits) else {
            return Ok(None);
        };
        let Some(value) = V::read(alloc, value)? else {
            return Ok(None);
        };
        Ok(Some(MultiPair {
            key,
            value,
            discriminator,
        }))
    }

    fn write<W: Write>(&self, writer: &mut W) -> io::Result<()> {
        self.key.write(writer)?;
        writer.write_all(b":")?;
        write_number(writer, self.discriminator)?;
        writer.write_all(b":")?;
        self.value.write(writer)
    }

    fn recall_range(&self) {
        self.key.recall_range();
        self.value.recall_range();
        let _number = self.discriminator;
    }
}
