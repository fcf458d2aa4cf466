//! Texts of any bytes, as keys of maps and elements of sets.
ghost use Rattle.std.specs.Prelude.{◌≡◌, ◌↔◌, [], IfOk, IsTrue, IfSome, IsSome};
ghost use Rattle.std.specs.Prelude.{IsUtf8, Some, length, nat_eq, refl, string_bytes};
ghost use Rattle.std.specs.Cmp.{partial_equiv_from_equiv};
ghost use Rattle.std.specs.Cmp.Lexicographic.{nat_list_cmp_total, nat_list_eq_equiv};
ghost use Rattle.std.specs.Cmp.Lexicographic.{pointwise, slice_cmp, texts_po, texts_ties};
ghost use Rattle.std.specs.Cmp.Rules.{hashing};
ghost use Rattle.std.specs.Hash as fed;
ghost use Rattle.std.specs.Ordering.{nat_cmp};
ghost use Rattle.std.proofs.Common.{rules};

use crate::by_bytes::{ByBytes, compare_bytes};
use std::alloc::{AllocError, Global};
use std::cmp::Ordering;
use std::convert::AsSlice;
use std::hash::{Hash, Hasher};
use std::marker::Model;
use std::{fmt, str};

/// A text of any bytes, in 24 bytes and one allocation.
///
/// It compares by its bytes, eight at a time, and its clones are identical to it. Sets of texts and
/// maps from texts accept a `&str` or a `&[u8]` in look-ups.
///
/// ```
/// let mut prices = BTreeMap::new(alloc)?;
/// prices.insert(Text::copied(alloc, "pear")?, 120)?;
/// assert_eq!(rt; prices.get("pear"), Some(&120));
/// ```
#[derive(Drop)]
pub struct Text {
    bytes: Vec<u8>,
}

impl Model for Text {
    ghost use Rattle.std.specs.Prelude.{ℕ, List};

    ghost Value = { List ℕ };

    ghost view = { λ t. t.bytes.items };
}

impl Text {
    /// Creates an empty text.
    ///
    /// It allocates nothing.
    ///
    /// ```
    /// assert!(rt; Text::new(alloc).is_empty());
    /// ```
    pub fn new(alloc: Global) -> Text
        ensures { result ≡ [] }
    {
        Text {
            bytes: Vec::new(alloc),
        }
    }

    /// Creates a text from its bytes, without a copy.
    ///
    /// It allocates nothing.
    ///
    /// ```
    /// let text = Text::from_vec(b"pear".to_vec(alloc)?);
    /// assert_eq!(rt; text.as_bytes(), b"pear".as_slice());
    /// ```
    pub fn from_vec(bytes: Vec<u8>) -> Text
        ensures { result ≡ bytes.items }
    {
        Text { bytes }
    }

    /// Creates a text from the bytes of a string, without a copy.
    ///
    /// It allocates nothing.
    ///
    /// ```
    /// let text = Text::from_string(String::from_str(alloc, "pear")?);
    /// assert_eq!(rt; text.as_bytes(), b"pear".as_slice());
    /// ```
    pub fn from_string(text: String) -> Text
        ensures { result ≡ string_bytes text }
    {
        Text {
            bytes: text.into_bytes(),
        }
    }

    /// Creates a text from a copy of a `&str`.
    ///
    /// # Examples
    ///
    /// ```
    /// assert_eq!(rt; Text::copied(alloc, "pear")?.len(), 4);
    /// ```
    ///
    /// # Errors
    ///
    /// Fails with `AllocError` if the allocation fails.
    pub fn copied(alloc: Global, text: &str) -> Result<Text, AllocError>
        ensures { IfOk result (λ t. t ≡ text.now) }
    {
        Text::copied_bytes(alloc, text.as_bytes())
    }

    /// Creates a text from a copy of a `&[u8]`.
    ///
    /// # Examples
    ///
    /// ```
    /// assert_eq!(rt; Text::copied_bytes(alloc, b"\xFF")?.to_str(), None);
    /// ```
    ///
    /// # Errors
    ///
    /// Fails with `AllocError` if the allocation fails.
    pub fn copied_bytes(alloc: Global, bytes: &[u8]) -> Result<Text, AllocError>
        ensures { IfOk result (λ t. t ≡ bytes.now) }
    {
        let bytes = bytes.to_vec(alloc)?;
        Ok(Text { bytes })
    }

    /// Returns the bytes.
    ///
    /// ```
    /// assert_eq!(rt; Text::copied(alloc, "pear")?.as_bytes(), b"pear".as_slice());
    /// ```
    #[inline]
    pub fn as_bytes(&self) -> &[u8]
        ensures { result.now ≡ self.now }
    {
        self.bytes.as_slice()
    }

    /// Returns the number of bytes.
    ///
    /// ```
    /// assert_eq!(rt; Text::copied(alloc, "pear")?.len(), 4);
    /// ```
    pub fn len(&self) -> usize
        ensures { result ≡ length self.now }
    {
        self.bytes.len()
    }

    /// Returns whether the text has no bytes.
    ///
    /// ```
    /// assert!(rt; !Text::copied(alloc, "pear")?.is_empty());
    /// ```
    pub fn is_empty(&self) -> bool
        ensures { IsTrue result ↔ (self.now ≡ []) }
    {
        self.bytes.is_empty()
    }

    /// Returns the text as a `&str` if its bytes are UTF-8.
    ///
    /// ```
    /// assert_eq!(rt; Text::copied(alloc, "pear")?.to_str(), Some("pear"));
    /// ```
    pub fn to_str(&self) -> Option<&str>
        ensures valid { IsSome result ↔ IsUtf8 self.now }
        ensures value { IfSome result (λ s. s.now ≡ self.now) }
    {
        str::from_utf8(self.as_bytes()).ok()
    }

    /// Returns the bytes as a `Vec`, without a copy.
    ///
    /// ```
    /// assert_eq!(rt; Text::copied(alloc, "pear")?.into_vec().len(), 4);
    /// ```
    pub fn into_vec(self) -> Vec<u8>
        ensures { result.items ≡ self }
    {
        let Text { bytes } = self;
        bytes
    }
}

impl Clone for Text {
    ghost is_clone = { λ t copy. copy ≡ t };

    fn clone(&self) -> Result<Text, AllocError> {
        let bytes = self.bytes.clone()?;
        Ok(Text { bytes })
    }
}

impl PartialEq for Text {
    ghost eq = { pointwise nat_eq };

    ghost laws = { partial_equiv_from_equiv nat_list_eq_equiv };

    fn eq(&self, other: &Self) -> bool {
        self.as_bytes() == other.as_bytes()
    }
}

impl Eq for Text {
    ghost laws = { nat_list_eq_equiv };
}

impl PartialOrd for Text {
    ghost partial_cmp = { λ t other. Some (slice_cmp nat_cmp t other) };

    ghost laws = { texts_po };

    fn partial_cmp(&self, other: &Self) -> Option<Ordering> {
        Some(self.cmp(other))
    }
}

impl Ord for Text {
    ghost cmp = { slice_cmp nat_cmp };

    ghost total = { nat_list_cmp_total };

    ghost matches_partial_cmp = { λ t other. refl };

    ghost matches_eq = { texts_ties };

    fn cmp(&self, other: &Self) -> Ordering {
        compare_bytes(self.as_bytes(), other.as_bytes())
    }
}

impl Hash for Text {
    ghost hash_input = { fed.slice fed.u8 };

    ghost respects_eq = { Prim.search (hashing, rules) };

    fn hash<H: Hasher>(&self, state: &mut H) {
        self.as_bytes().hash(state);
    }
}

impl AsSlice<u8> for Text {
    ghost items = { λ t. t };

    fn as_slice(&self) -> &[u8] {
        self.bytes.as_slice()
    }
}

impl ByBytes for Text {
    ghost bytes = { λ t. t };

    ghost ordered_by_bytes = { λ x y. refl };

    #[inline]
    fn bytes(&self) -> &[u8] {
        self.as_bytes()
    }
}

/// Writes the text, with U+FFFD in the place of bytes that are not UTF-8.
impl fmt::Display for Text {
    ghost use Rattle.std.specs.Prelude.{Some};
    ghost use Rattle.std.specs.Str.Lossy.{utf8_lossy};

    ghost output = { λ t. Some (utf8_lossy t) };

    fn fmt<W: fmt::Write>(&self, f: &mut fmt::Formatter<W>) -> fmt::Result {
        for chunk in self.as_bytes().utf8_chunks() {
            f.write_str(chunk.valid())?;
            if !chunk.invalid().is_empty() {
                f.write_str("\u{FFFD}")?;
            }
        }
        Ok(())
    }
}

/// Writes the text in quotes, as `Display` writes it.
impl fmt::Debug for Text {
    fn fmt<W: fmt::Write>(&self, f: &mut fmt::Formatter<W>) -> fmt::Result {
        write!(f, "\"{self}\"")
    }
}
