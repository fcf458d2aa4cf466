//! Items that are ordered by their bytes, such as `String`, `BoxedStr` and
//! [`Text`](crate::text::Text).
ghost use Rattle.std.specs.Prelude.{◌≡◌, ◌≤◌, ℕ, List, length, refl, take};
ghost use Rattle.std.specs.Cmp.Lexicographic.{slice_cmp};
ghost use Rattle.std.specs.Int.{from_be_bytes, w64};
ghost use Rattle.std.specs.Ordering.{nat_cmp};
ghost use Rattle.std.specs.Box.{boxed_str_bytes};
ghost use Rattle.std.specs.String.{string_bytes};
ghost use Rattle.indexset_core.specs.ByteOrder.{IsOrderedByBytes};

use std::alloc::Allocator;
use std::boxed::BoxedStr;
use std::cmp::Ordering;

/// An item that is ordered by its bytes.
///
/// Collections of such items, and maps with such keys, accept a `&str` or a `&[u8]` in look-ups. A
/// text key type of your own needs only this impl.
///
/// ```
/// # use indexset::base::by_bytes::ByBytes;
/// let name = Text::copied(alloc, "pear")?;
/// assert!(rt; name.bytes() == b"pear".as_slice());
/// ```
pub trait ByBytes: Ord {
    /// The bytes.
    ghost bytes: { Self → List ℕ };

    /// Returns the bytes.
    fn bytes(&self) -> &[u8]
        ensures { result.now ≡ bytes self.now };

    ghost ordered_by_bytes: { IsOrderedByBytes Self.cmp bytes };
}

impl<A: Allocator> ByBytes for String<A> {
    ghost bytes = { string_bytes };

    ghost ordered_by_bytes = { λ x y. refl };

    #[inline]
    fn bytes(&self) -> &[u8] {
        self.as_str().as_bytes()
    }
}

impl<A: Allocator> ByBytes for BoxedStr<A> {
    ghost bytes = { boxed_str_bytes };

    ghost ordered_by_bytes = { λ x y. refl };

    #[inline]
    fn bytes(&self) -> &[u8] {
        self.as_str().as_bytes()
    }
}

/// Compares two byte strings, eight bytes at a time.
///
/// ```
/// # use indexset::base::by_bytes::compare_bytes;
/// assert!(rt; compare_bytes(b"pear", b"plum").is_lt() && compare_bytes(b"fig", b"fig").is_eq());
/// ```
#[inline(always)]
pub fn compare_bytes<'a>(first: &'a [u8], second: &'a [u8]) -> Ordering
    ensures { result ≡ slice_cmp nat_cmp first.now second.now }
{
    // The first eight bytes are compared outside the loop. The loop is a separate function, so that
    // the loop of a search remains an innermost loop, which the compiler compiles to branches: with
    // conditional moves it waits for items that are not in the cache.
    if first.len() >= 8 && second.len() >= 8 {
        let found = first_word(first).cmp(&first_word(second));
        if found.is_ne() {
            return found;
        }
    }
    compare_words(first, second)
}

// Does the same as `compare_bytes`, by a loop over words of eight bytes.
#[inline(never)]
fn compare_words<'a>(first: &'a [u8], second: &'a [u8]) -> Ordering
    ensures { result ≡ slice_cmp nat_cmp first.now second.now }
{
    let (mut left, mut right) = (first, second);
    while left.len() >= 8 && right.len() >= 8 {
        let found = first_word(left).cmp(&first_word(right));
        if found.is_ne() {
            return found;
        }
        left = &left[8..];
        right = &right[8..];
    }
    left.cmp(right)
}

// Returns the first eight bytes as a big-endian number, which compares as they do.
fn first_word(bytes: &[u8]) -> u64
    requires { 8 ≤ length bytes.now }
    ensures { result ≡ from_be_bytes w64 (take 8 bytes.now) }
{
    match bytes.first_chunk::<8>() {
        Some(front) => u64::from_be_bytes(*front),
        None => 0,
    }
}
