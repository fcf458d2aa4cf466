//! Keys and values of the map.

ghost use Rattle.indexset_core.specs.Clones.{AreIdentical};
ghost use Rattle.std.specs.Prelude.{◌≡◌, false, IfErr, IfOk, IsOk, Some, refl};
ghost use Rattle.indexset_bench.specs.Texts.{two_keys};

use indexset_lines::RunFault;
use indexset_wire::item::{Item, Token};
use indexset_wire::parts::cut;
use std::alloc::Global;
use std::fmt;

/// A type of keys and values. Each value has one text, the bytes that `{}` writes.
pub trait Key: Ord + Clone + fmt::Display + Token {
    /// `{}` writes the text.
    ghost shown: { (x : Self) → Self.output x ≡ Some (Self.texts.text x) };

    /// A clone is identical to its source.
    ghost identical: { AreIdentical Self.is_clone };
}

impl Key for u64 {
    ghost shown = { λ n. refl };

    ghost identical = { λ x y same. same };
}

/// Returns the key, the value or the pair that has this text, or `None` if none has it.
pub fn read_item<T: Item>(alloc: Global, text: &[u8]) -> Result<Option<T>, RunFault>
    ensures value { IfOk result (λ value. value ≡ T.texts.parse text.now) }
    ensures fault { IfErr result (λ fault. fault ≡ RunFault.Memory) }
    ensures no_memory { T.allocates ≡ false → IsOk result }
{
    T::read(alloc, text).map_err(|_| RunFault::Memory)
}

/// Returns the two keys of a text that separates them with a space.
pub fn read_two_keys<T: Key>(alloc: Global, text: &[u8]) -> Result<Option<(T, T)>, RunFault>
    ensures keys { IfOk result (λ keys. keys ≡ two_keys T.texts text.now) }
    ensures fault { IfErr result (λ fault. fault ≡ RunFault.Memory) }
    ensures no_memory { T.allocates ≡ false → IsOk result }
{
    let Some((first, second)) = cut(text, b' ') else {
        return Ok(None);
    };
    let Some(first) = read_item(alloc, first)? else {
        return Ok(None);
    };
    let Some(second) = read_item(alloc, second)? else {
        return Ok(None);
    };
    Ok(Some((first, second)))
}
