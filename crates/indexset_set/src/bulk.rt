//! Calls that change many elements of a set at once.
ghost use Rattle.std.specs.Prelude.{◌≡◌, ◌<◌, ◌≤◌, ◌↔◌, ◌++◌, true, false, IsTrue, take, []};
ghost use Rattle.std.specs.Prelude.{IfOk, OnOk, IfErr, OnErr, IfSome, length, drop, slice_get};
ghost use Rattle.std.specs.Fn.{CalledAt};
ghost use Rattle.std.specs.List.{All};
ghost use Rattle.std.specs.List.Retain.{IsFiltered};
ghost use Rattle.std.specs.Ordering.{is_lt};
ghost use Rattle.indexset_spine.specs.NodeList.{items, node_list};
ghost use Rattle.indexset_spine.specs.Edits.{FoldsPrefix};
ghost use Rattle.indexset_core.specs.Order.{IsAscending, below, put};
ghost use Rattle.indexset_set.specs.SetAlgebra.{put_all, MovesPrefix};
ghost use Rattle.indexset_set.specs.SetNodes.{PutsPrefix, nodes_put, nodes_put_all};
ghost use Rattle.indexset_set.specs.SetRanges.{not_below};

use super::BTreeSet;
use super::lookup::{locate, locate_near};
use indexset_core::lookup_key::LookupKey;
use indexset_core::refusal::Refusal;

impl<T: Ord + Drop> BTreeSet<T> {
    /// Retains the elements for which the closure returns true.
    ///
    /// The closure is called once for each element, in order. The set allocates nothing.
    ///
    /// ```
    /// let mut set = BTreeSet::from_iter(alloc, 1..=6)?;
    /// set.retain(|element| element % 2 == 0);
    /// assert!(rt; set.iter().copied().eq([2, 4, 6]));
    /// ```
    pub fn retain<F: FnMut(&T) -> bool>(&mut self, mut f: F)
        requires { F.IsAlwaysCallable f }
        ensures kept { IsFiltered (CalledAt F.FnMut) f (items self.old) (items self.new) }
        ensures size { self.new.size ≡ self.old.size }
    {
        self.spine.retain_mut(
            |x: &mut T| -> bool
                requires { F.IsAlwaysCallable f }
                ensures called { CalledAt F.FnMut f.entry x.old result f.exit }
                ensures again { F.IsAlwaysCallable f.exit }
                ensures unchanged { x.new ≡ x.old }
            { f(x) },
        );
    }

    /// Splits the set at a value, and returns the elements that are not below it.
    ///
    /// The returned set has the same node size.
    ///
    /// # Examples
    ///
    /// ```
    /// let mut low = BTreeSet::from_iter(alloc, [1, 2, 3, 4])?;
    /// let high = low.split_off(&3)?;
    /// assert!(rt; low.last() == Some(&2) && high.first() == Some(&3));
    /// ```
    ///
    /// # Errors
    ///
    /// Fails with `Memory` only. A failed call changes nothing.
    pub fn split_off<Q: LookupKey<T> + Drop>(&mut self, value: Q) -> Result<Self, Refusal>
        // Result.
        ensures rest { IfOk result (λ s. items s ≡ not_below Q.order (items self.old) value) }
        ensures all_from { IfOk result (λ s. All (λ x. is_lt (Q.order x value) ≡ false)
            (items s)) }

        // Contents.
        ensures below { OnOk result (items self.new ≡ below Q.order (items self.old) value) }
        ensures all_below { OnOk result (All (λ x. is_lt (Q.order x value) ≡ true)
            (items self.new)) }
        ensures whole { IfOk result (λ s. items self.old ≡ items self.new ++ items s) }

        // Failure.
        ensures refusal { IfErr result (λ e. e ≡ Refusal.Memory) }
        ensures unchanged { OnErr result (self.new ≡ self.old) }

        // Nodes.
        ensures size { self.new.size ≡ self.old.size }
        ensures rest_size { IfOk result (λ s. s.size ≡ self.old.size) }
    {
        let spot = locate(&self.spine, value);
        let spine = self.spine.split_off(spot)?;
        Ok(BTreeSet { spine })
    }

    /// Splits the set at a position, and returns the elements from there on.
    ///
    /// The returned set has the same node size.
    ///
    /// # Examples
    ///
    /// ```
    /// let mut front = BTreeSet::from_iter(alloc, [1, 2, 3, 4])?;
    /// let back = front.split_off_index(1)?;
    /// assert!(rt; front.len() == 1 && back.len() == 3);
    /// ```
    ///
    /// # Errors
    ///
    /// Fails with `Memory` only. A failed call changes nothing.
    pub fn split_off_index(&mut self, i: usize) -> Result<Self, Refusal>
        requires { i ≤ length (items self.old) }

        // Result.
        ensures rest { IfOk result (λ s. items s ≡ drop i (items self.old)) }

        // Contents.
        ensures first { OnOk result (items self.new ≡ take i (items self.old)) }

        // Failure.
        ensures refusal { IfErr result (λ e. e ≡ Refusal.Memory) }
        ensures unchanged { OnErr result (self.new ≡ self.old) }

        // Nodes.
        ensures size { self.new.size ≡ self.old.size }
        ensures rest_size { IfOk result (λ s. s.size ≡ self.old.size) }
    {
        let spot = self.spine.spot_after(i);
        let spine = self.spine.split_off(spot)?;
        Ok(BTreeSet { spine })
    }

    /// Moves all elements of `other` into this set, first to last, replacing equal ones.
    ///
    /// # Examples
    ///
    /// ```
    /// let mut set = BTreeSet::from_iter(alloc, [1, 2])?;
    /// let mut other = BTreeSet::from_iter(alloc, [2, 3])?;
    /// set.append(&mut other)?;
    /// assert!(rt; set.iter().copied().eq([1, 2, 3]) && other.is_empty());
    /// ```
    ///
    /// # Errors
    ///
    /// Fails with `Memory` only. A failed call has moved a prefix, and leaves the other elements in
    /// `other`.
    ///
    /// # Complexity
    ///
    /// Elements above all elements of this set move by blocks, without a comparison.
    pub fn append(&mut self, other: &mut Self) -> Result<(), Refusal>
        // Contents.
        ensures ok { OnOk result (items self.new
            ≡ put_all T.cmp (items self.old) (items other.old)) }
        ensures emptied { OnOk result (items other.new ≡ []) }

        // Failure.
        ensures refusal { IfErr result (λ e. e ≡ Refusal.Memory) }
        ensures err { OnErr result (MovesPrefix T.cmp (items self.old) (items other.old)
            (items self.new) (items other.new)) }
        ensures some_left { OnErr result (0 < length (items other.new)) }

        // Nodes.
        ensures nodes { OnOk result (self.new.nodes
            ≡ nodes_put_all T.cmp self.old (items other.old)) }
        ensures size { self.new.size ≡ self.old.size }
        ensures other_size { other.new.size ≡ other.old.size }
        ensures err_nodes { OnErr result (PutsPrefix T.cmp self.old (items other.old) self.new.nodes
            (items other.new)) }
    {
        let mut near = 0;
        while !self.is_below(other) {
            near = self.put_some_of(other, near)?;
        }
        self.append_above(other)
    }

    // Returns whether each element here is below each there, by one comparison at most.
    fn is_below(&self, other: &Self) -> bool
        ensures value { IsTrue result ↔ IsAscending T.cmp (items self.now ++ items other.now) }
        ensures some { result ≡ false → 0 < length (items other.now) }
    {
        let (Some(last), Some(first)) = (self.spine.last_spot(), other.spine.first_spot()) else {
            return true;
        };
        self.spine.item(&last).cmp(other.spine.item(&first)).is_lt()
    }

    // Appends the elements of another set, which are above those here. A failed call has moved a
    // prefix.
    fn append_above(&mut self, other: &mut Self) -> Result<(), Refusal>
        requires order { IsAscending T.cmp (items self.old ++ items other.old) }

        // Contents.
        ensures moved { FoldsPrefix (put T.cmp) (items self.old) (items other.old) (items self.new)
            (items other.new) }
        ensures emptied { OnOk result (items other.new ≡ []) }

        // Failure.
        ensures refusal { IfErr result (λ e. e ≡ Refusal.Memory) }
        ensures some_left { OnErr result (0 < length (items other.new)) }

        // Nodes.
        ensures nodes { FoldsPrefix (λ ns x. nodes_put T.cmp (node_list ns self.old.size) x)
            self.old.nodes
            (items other.old) self.new.nodes (items other.new) }
        ensures size { self.new.size ≡ self.old.size }
        ensures other_size { other.new.size ≡ other.old.size }
    {
        self.spine.recall_lengths();
        self.spine.append(&mut other.spine)
    }

    // Moves first elements of another set into this one, as many as one node takes at once, or one,
    // and returns the node into which they are inserted. The node `near` is tried first. A failed
    // call changes neither.
    fn put_some_of(&mut self, other: &mut Self, near: usize) -> Result<usize, Refusal>
        requires some { 0 < length (items other.old) }

        // Contents.
        ensures moved { OnOk result (FoldsPrefix (put T.cmp) (items self.old) (items other.old)
            (items self.new) (items other.new)) }
        ensures fewer { OnOk result (length (items other.new) < length (items other.old)) }

        // Failure.
        ensures refusal { IfErr result (λ e. e ≡ Refusal.Memory) }
        ensures unchanged { OnErr result (self.new ≡ self.old) }
        ensures other_unchanged { OnErr result (other.new ≡ other.old) }

        // Nodes.
        ensures nodes { OnOk result
            (FoldsPrefix (λ ns x. nodes_put T.cmp (node_list ns self.old.size) x)
            self.old.nodes (items other.old) self.new.nodes (items other.new)) }
        ensures size { self.new.size ≡ self.old.size }
        ensures other_size { other.new.size ≡ other.old.size }
    {
        let Some(first) = other.spine.first_spot() else {
            unreachable!()
        };
        let spot = locate_near(&self.spine, near, other.spine.item(&first));
        let node = spot.node;
        self.spine.recall_lengths();
        let run = self.spine.count_inside(&spot, &other.spine);
        if 0 < run {
            self.spine.merge_from(node, &mut other.spine, run)?;
            return Ok(node);
        }
        if spot.found {
            self.spine.replace(spot, other.spine.remove(first));
            return Ok(node);
        }
        self.spine.insert_from(spot, &mut other.spine)?;
        Ok(node)
    }
}
