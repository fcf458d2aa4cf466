//! Equality, order and hash of maps, by their keys and values in order. The nodes do not matter.
ghost use Rattle.std.specs.Prelude.{◌&&◌, ◌++◌};
ghost use Rattle.std.specs.Hash as fed;
ghost use Rattle.std.specs.Hash.{on_Alike, and-Alike, items_Alike};
ghost use Rattle.std.specs.Ordering.{ordering_then, partial_ordering_then};
ghost use Rattle.std.specs.Cmp.{on_equiv, and_equiv, then_agrees, on_total, then_total};
ghost use Rattle.std.specs.Cmp.{both_tied, on_per, and_per, on_po, then_po};
ghost use Rattle.std.specs.Cmp.Lexicographic.{pointwise, slice_cmp, slice_partial_cmp};
ghost use Rattle.std.specs.Cmp.Lexicographic.{lists_equiv, lists_agrees, lists_total};
ghost use Rattle.std.specs.Cmp.Lexicographic.{lists_ties, lists_per, lists_po};

use super::BTreeMap;
use std::cmp::Ordering;
use std::hash::{Hash, Hasher};

impl<K: Ord, V: PartialEq> PartialEq for BTreeMap<K, V> {
    ghost eq = { λ m n. pointwise (λ p q. K.eq p.key q.key && V.eq p.value q.value) m.pairs
        n.pairs };

    ghost laws = { on_per (λ m. m.pairs) (lists_per
        (and_per (on_per (λ p. p.key) K.PartialEq.laws) (on_per (λ p. p.value) V.laws))) };

    fn eq(&self, other: &BTreeMap<K, V>) -> bool {
        if self.len() != other.len() {
            return false;
        }
        let (mut left, mut right) = (self.iter(), other.iter());
        while let Some((key, value)) = left.next() {
            let (other_key, other_value) = right.next().unwrap();
            if !key.eq(other_key) || !value.eq(other_value) {
                return false;
            }
        }
        true
    }
}

impl<K: Ord, V: Eq> Eq for BTreeMap<K, V> {
    ghost laws = { on_equiv (λ m. m.pairs)
        (lists_equiv (and_equiv (on_equiv (λ p. p.key) K.Eq.laws)
        (on_equiv (λ p. p.value) V.Eq.laws))) };
}

impl<K: Ord, V: PartialOrd> PartialOrd for BTreeMap<K, V> {
    ghost partial_cmp = { λ m n. slice_partial_cmp
        (λ p q. partial_ordering_then (K.partial_cmp p.key q.key) (V.partial_cmp p.value q.value))
        m.pairs n.pairs };

    ghost laws = { on_po (λ m. m.pairs) (lists_po
        (then_po (on_po (λ p. p.key) K.PartialOrd.laws)
        (on_po (λ p. p.value) V.PartialOrd.laws))) };

    fn partial_cmp(&self, other: &BTreeMap<K, V>) -> Option<Ordering> {
        let (mut left, mut right) = (self.iter(), other.iter());
        while let Some((key, value)) = left.next() {
            let Some((other_key, other_value)) = right.next() else {
                return Some(Ordering::Greater);
            };
            match key.partial_cmp(other_key) {
                Some(Ordering::Equal) => {}
                unequal => return unequal,
            }
            match value.partial_cmp(other_value) {
                Some(Ordering::Equal) => {}
                unequal => return unequal,
            }
        }
        match right.next() {
            Some(_) => Some(Ordering::Less),
            None => Some(Ordering::Equal),
        }
    }
}

impl<K: Ord, V: Ord> Ord for BTreeMap<K, V> {
    ghost cmp = { λ m n. slice_cmp (λ p q. ordering_then (K.cmp p.key q.key)
        (V.cmp p.value q.value)) m.pairs n.pairs };

    ghost total = { on_total (λ m. m.pairs)
        (lists_total (then_total (on_total (λ p. p.key) K.total)
        (on_total (λ p. p.value) V.total))) };

    ghost matches_partial_cmp = { λ m n. lists_agrees
        (then_agrees (λ p q. K.matches_partial_cmp p.key q.key)
        (λ p q. V.matches_partial_cmp p.value q.value)) m.pairs n.pairs };

    ghost matches_eq = { λ m n.
        let keys = K.cmp in
        let values = V.cmp in
        lists_ties (λ p q. ordering_then (keys p.key q.key) (values p.value q.value))
        (λ p q. both_tied _ _ (keys p.key q.key) (values p.value q.value) (K.matches_eq p.key q.key)
        (V.matches_eq p.value q.value)) m.pairs n.pairs };

    fn cmp(&self, other: &BTreeMap<K, V>) -> Ordering {
        let (mut left, mut right) = (self.iter(), other.iter());
        while let Some((key, value)) = left.next() {
            let Some((other_key, other_value)) = right.next() else {
                return Ordering::Greater;
            };
            match key.cmp(other_key).then_with(|| value.cmp(other_value)) {
                Ordering::Equal => {}
                unequal => return unequal,
            }
        }
        match right.next() {
            Some(_) => Ordering::Less,
            None => Ordering::Equal,
        }
    }
}

impl<K: Ord + Hash, V: Hash> Hash for BTreeMap<K, V> {
    ghost hash_input = { λ m. fed.slice (λ p. K.hash_input p.key ++ V.hash_input p.value) m.pairs };

    ghost respects_eq = { (on_Alike (λ m. m.pairs)
        (items_Alike (and-Alike (on_Alike (λ p. p.key) (record { fed = K.respects_eq }))
        (on_Alike (λ p. p.value) (record { fed = V.respects_eq }))))).fed };

    fn hash<H: Hasher>(&self, state: &mut H) {
        state.write_usize(self.len());
        for (key, value) in self.iter() {
            key.hash(state);
            value.hash(state);
        }
    }
}
