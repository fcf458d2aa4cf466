//! A key with its value and a number, compared by the key and then the number.
ghost use Rattle.std.specs.Prelude.{◌≡◌, ◌&&◌, ◌++◌, Some, nat_eq, refl};
ghost use Rattle.std.specs.Ordering.{nat_cmp, ordering_then, partial_ordering_then};
ghost use Rattle.std.specs.Cmp.{on_equiv, and_equiv, then_agrees, on_total, then_total, both_tied};
ghost use Rattle.std.specs.Cmp.{on_per, and_per, on_po, then_po, nat_eq_equiv, nat_cmp_total};
ghost use Rattle.std.specs.Cmp.{partial_equiv_from_equiv, partial_order_from_total};
ghost use Rattle.std.specs.Hash as fed;
ghost use Rattle.std.specs.Cmp.Rules.{comparing};
ghost use Rattle.std.proofs.Common.{rules};

use crate::pair::Pair;
use crate::refusal::Refused;
use std::cmp::Ordering;
use std::fmt;
use std::hash::{Hash, Hasher};

/// A key with its value and a number that distinguishes the pairs of one key.
///
/// Its order, equality and hash are those of the key, and then of the number.
///
/// ```
/// let (first, second) = (MultiPair::new("fig", 5, 0), MultiPair::new("fig", 5, 1));
/// assert!(rt; first < second && first != second);
/// ```
#[derive(Clone, Default, Debug, Drop)]
pub struct MultiPair<K, V> {
    /// The key.
    pub key: K,
    /// The value.
    pub value: V,
    /// The number that distinguishes pairs of one key.
    pub discriminator: u64,
}

impl<K, V> MultiPair<K, V> {
    /// Creates a pair of a key and a value, with its number.
    ///
    /// ```
    /// let pair = MultiPair::new("fig", 5, 7);
    /// assert!(rt; pair.key == "fig" && pair.value == 5 && pair.discriminator == 7);
    /// ```
    pub fn new(key: K, value: V, discriminator: u64) -> Self
        ensures { result ≡ record { key = key; value = value; discriminator = discriminator } }
    {
        MultiPair {
            key,
            value,
            discriminator,
        }
    }
}

impl<K, V> Pair<K, V> {
    /// Returns the pair of the same key and value, with a number.
    ///
    /// ```
    /// let pair = Pair { key: "fig", value: 5 }.numbered(7);
    /// assert!(rt; pair.value == 5 && pair.discriminator == 7);
    /// ```
    pub fn numbered(self, discriminator: u64) -> MultiPair<K, V>
        ensures { result ≡ record {
          key = self.key;
          value = self.value;
          discriminator = discriminator;
        } }
    {
        let Pair { key, value } = self;
        MultiPair::new(key, value, discriminator)
    }
}

impl<K, V> From<MultiPair<K, V>> for Pair<K, V> {
    ghost from_gives = { λ p r. r ≡ record { key = p.key; value = p.value } };

    fn from(pair: MultiPair<K, V>) -> Pair<K, V> {
        let MultiPair {
            key,
            value,
            discriminator: _,
        } = pair;
        Pair { key, value }
    }
}

impl<K: PartialEq, V> PartialEq for MultiPair<K, V> {
    ghost eq = { λ p q. K.eq p.key q.key && nat_eq p.discriminator q.discriminator };

    ghost laws = { and_per (on_per (λ p. p.key) K.PartialEq.laws)
        (on_per (λ p. p.discriminator) (partial_equiv_from_equiv nat_eq_equiv)) };

    fn eq(&self, other: &MultiPair<K, V>) -> bool {
        if self.key.eq(&other.key) {
            self.discriminator == other.discriminator
        } else {
            false
        }
    }
}

impl<K: Eq, V> Eq for MultiPair<K, V> {
    ghost laws = { and_equiv (on_equiv (λ p. p.key) K.Eq.laws)
        (on_equiv (λ p. p.discriminator) nat_eq_equiv) };
}

impl<K: PartialOrd, V> PartialOrd for MultiPair<K, V> {
    ghost partial_cmp = { λ p q. partial_ordering_then (K.partial_cmp p.key q.key)
        (Some (nat_cmp p.discriminator q.discriminator)) };

    ghost laws = { then_po (on_po (λ p. p.key) K.PartialOrd.laws)
        (on_po (λ p. p.discriminator) (Prim.search (comparing, rules))) };

    fn partial_cmp(&self, other: &MultiPair<K, V>) -> Option<Ordering> {
        match self.key.partial_cmp(&other.key) {
            Some(Ordering::Equal) => self.discriminator.partial_cmp(&other.discriminator),
            unequal => unequal,
        }
    }
}

impl<K: Ord, V> Ord for MultiPair<K, V> {
    ghost cmp = { λ p q. ordering_then (K.cmp p.key q.key)
        (nat_cmp p.discriminator q.discriminator) };

    ghost total = { then_total (on_total (λ p. p.key) K.total)
        (on_total (λ p. p.discriminator) nat_cmp_total) };

    ghost matches_partial_cmp = { then_agrees (λ p q. K.matches_partial_cmp p.key q.key)
        (λ p q. refl) };

    ghost matches_eq = { λ p q. both_tied _ _ (K.cmp p.key q.key)
        (nat_cmp p.discriminator q.discriminator) (K.matches_eq p.key q.key)
        (Prim.search (comparing, rules)) };

    fn cmp(&self, other: &MultiPair<K, V>) -> Ordering {
        match self.key.cmp(&other.key) {
            Ordering::Equal => self.discriminator.cmp(&other.discriminator),
            unequal => unequal,
        }
    }
}

/// Writes the key, a colon, the value and the number, as in `3:pears #0`.
impl<K: fmt::Display, V: fmt::Display> fmt::Display for MultiPair<K, V> {
    ghost use Rattle.indexset_core.specs.Text.{multi_pair_shown};

    ghost output = { multi_pair_shown K.output V.output };

    fn fmt<W: fmt::Write>(&self, f: &mut fmt::Formatter<W>) -> fmt::Result {
        let MultiPair {
            key,
            value,
            discriminator,
        } = self;
        write!(f, "{key}:{value} #{discriminator}")
    }
}

impl<K: Hash, V> Hash for MultiPair<K, V> {
    ghost hash_input = { λ p. K.hash_input p.key ++ fed.u64 p.discriminator };

    ghost respects_eq = { Prim.search rules };

    fn hash<H: Hasher>(&self, state: &mut H) {
        self.key.hash(state);
        self.discriminator.hash(state);
    }
}

impl<K, V> From<Refused<MultiPair<K, V>>> for Refused<(K, V)> {
    ghost from_gives = { λ e r. (r.value ≡ (e.value.key, e.value.value)) × (r.cause ≡ e.cause) };

    fn from(refused: Refused<MultiPair<K, V>>) -> Refused<(K, V)> {
        let Refused { value, cause } = refused;
        let MultiPair {
            key,
            value,
            discriminator: _,
        } = value;
        Refused {
            value: (key, value),
            cause,
        }
    }
}
