//! Equality, order and hash of sets: those of their elements in order, independent of the nodes.
ghost use Rattle.std.specs.Hash as fed;
ghost use Rattle.std.specs.Hash.{on_Alike, items_Alike};
ghost use Rattle.std.specs.Cmp.{on_equiv, on_total, on_per, on_po};
ghost use Rattle.std.specs.Cmp.Lexicographic.{pointwise, slice_cmp, slice_partial_cmp};
ghost use Rattle.std.specs.Cmp.Lexicographic.{lists_equiv, lists_agrees, lists_total};
ghost use Rattle.std.specs.Cmp.Lexicographic.{lists_ties, lists_per, lists_po};
ghost use Rattle.indexset_spine.specs.NodeList.{items};

use super::BTreeSet;
use indexset_spine::iter::runs;
use std::cmp::Ordering;
use std::hash::{Hash, Hasher};

impl<T: Ord> PartialEq for BTreeSet<T> {
    ghost eq = { λ s t. pointwise T.eq (items s) (items t) };

    ghost laws = { on_per items (lists_per T.PartialEq.laws) };

    fn eq(&self, other: &BTreeSet<T>) -> bool {
        if self.spine.len() != other.spine.len() {
            return false;
        }
        runs::have_equal_items(self.spine.iter(), other.spine.iter())
    }
}

impl<T: Ord> Eq for BTreeSet<T> {
    ghost laws = { on_equiv items (lists_equiv T.Eq.laws) };
}

impl<T: Ord> PartialOrd for BTreeSet<T> {
    ghost partial_cmp = { λ s t. slice_partial_cmp T.partial_cmp (items s) (items t) };

    ghost laws = { on_po items (lists_po T.PartialOrd.laws) };

    fn partial_cmp(&self, other: &BTreeSet<T>) -> Option<Ordering> {
        Some(self.cmp(other))
    }
}

impl<T: Ord> Ord for BTreeSet<T> {
    ghost cmp = { λ s t. slice_cmp T.cmp (items s) (items t) };

    ghost total = { on_total items (lists_total T.total) };

    ghost matches_partial_cmp = { λ s t. lists_agrees T.matches_partial_cmp (items s) (items t) };

    ghost matches_eq = { λ s t. lists_ties T.cmp T.matches_eq (items s) (items t) };

    fn cmp(&self, other: &BTreeSet<T>) -> Ordering {
        self.spine.iter().cmp(other.spine.iter())
    }
}

impl<T: Ord + Hash> Hash for BTreeSet<T> {
    ghost hash_input = { λ s. fed.slice T.hash_input (items s) };

    ghost respects_eq = { (on_Alike items (items_Alike (record { fed = T.respects_eq }))).fed };

    fn hash<H: Hasher>(&self, state: &mut H) {
        state.write_usize(self.spine.len());
        for item in self.spine.iter() {
            item.hash(state);
        }
    }
}
