//! Types whose values have texts.
ghost use Rattle.std.specs.Prelude.{◌≡◌, Bool, false, IfOk, IsOk, OnOk};
ghost use Rattle.std.specs.Io.KnownBytes.{Appends};
ghost use Rattle.indexset_wire.specs.Texts.{AreItems, AreTokens, Texts};

use std::alloc::{AllocError, Global};
use std::io::{self, Write};

/// A type of items: each value has one text, without a space and without an end of line.
///
/// Integers of 8 to 64 bits are items, and so are a `Pair` and a `MultiPair` of tokens.
///
/// ```
/// # use indexset::cdc::text::item::Item;
/// assert!(rt; Pair::<u64, u64>::read(alloc, b"5:50")?.map(|pair| pair.value) == Some(50));
/// assert!(rt; u64::read(alloc, b"0250")?.is_none() && u8::read(alloc, b"256")?.is_none());
/// ```
pub trait Item: Drop {
    /// The text of each value, and the value of each text.
    ghost texts: { Texts Self };

    /// Whether reading a value allocates.
    ghost allocates: { Bool };

    /// Returns the value that has this text, or `None` if no value has it.
    ///
    /// # Errors
    ///
    /// `AllocError` if memory runs out.
    fn read(alloc: Global, text: &[u8]) -> Result<Option<Self>, AllocError>
        ensures value { IfOk result (λ value. value ≡ texts.parse text.now) }
        ensures no_memory { allocates ≡ false → IsOk result };

    /// Writes the text of the value.
    ///
    /// # Errors
    ///
    /// Those of the writer.
    fn write<W: Write>(&self, writer: &mut W) -> io::Result<()>
        ensures written { OnOk result (Appends (W.contents writer.old) (W.contents writer.new)
            (texts.text self.now)) };

    /// Does nothing; its contract states that the value is in the range of its type.
    fn recall_range(&self)
        ensures in_range { texts.InRange self.now };

    /// The text of a value is read as that value, and no other text is.
    ghost items: { AreItems texts };
}

/// A type of keys and values: the text of a value has no colon, so a pair's text can contain it.
///
/// ```
/// // The text of a pair of tokens is read as the pair.
/// # use indexset::cdc::text::item::{Item, Token};
/// # use std::alloc::{AllocError, Global};
/// fn pair_of<K: Token, V: Token>(
///     alloc: Global,
///     text: &[u8],
/// ) -> Result<Option<Pair<K, V>>, AllocError> {
///     Pair::read(alloc, text)
/// }
/// let pair = pair_of::<u64, u64>(alloc, b"5:50")?;
/// assert!(rt; pair.map(|pair| pair.value) == Some(50));
/// ```
pub trait Token: Item {
    /// The texts are those of items, and none has a colon.
    ghost tokens: { AreTokens Self.texts };
}
