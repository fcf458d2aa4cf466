//! Ranks, positions and the items at them.
ghost use Rattle.std.specs.Prelude.{◌≡◌, ◌+◌, ◌<◌, ◌≤◌, true, None, Some, IfErr, IfOk, IfSome};
ghost use Rattle.std.specs.Prelude.{MatchOption, length, map, position, slice_get, take};
ghost use Rattle.std.specs.List.{AllWithin, count_by};
ghost use Rattle.std.specs.Map.Iter.{ShowsInOrder, ShowsInReverse, deref};
ghost use Rattle.std.specs.Option.{option_copied};
ghost use Rattle.std.specs.Ordering.{is_eq};
ghost use Rattle.std.specs.declared.cmp.Ordering.TheVariants.{Less};
ghost use Rattle.indexset_core.specs.KeyRange.{IfBounded, in_positions, is_before, is_up_to_end};
ghost use Rattle.indexset_core.specs.Digits.{digits};
ghost use Rattle.indexset_core.specs.Nodes.{concat, node_at};
ghost use Rattle.indexset_core.specs.Order.{IsAscending, equal_element, has_equal, index_of, rank};
ghost use Rattle.indexset_core.specs.Parted.{IsParted, less_count};
ghost use Rattle.indexset_core.specs.Places.{IsPlace, items_before};

use super::BTreeSet;
use super::range::Range;
use indexset_core::item_iter::OfNode;
use indexset_core::lookup_key::LookupKey;
use indexset_core::node::NodeLike;
use indexset_core::position_range::{PositionRange, end_position, first_position};
use indexset_core::probe::Probe;
use std::ops::Bound;

impl<T: Ord + Clone + Drop, Node: NodeLike<T>> BTreeSet<T, Node> {
    /// Returns the number of items below the value.
    ///
    /// # Examples
    ///
    /// ```
    /// let mut board: set::BTreeSet<u64, Vec<u64>> = set::BTreeSet::new(alloc);
    /// for score in [10, 20, 30] {
    ///     board.insert(score)?;
    /// }
    /// assert!(rt; board.rank(&30) == 2 && board.rank(&25) == 2);
    /// ```
    ///
    /// # Complexity
    ///
    /// Makes two binary searches and a sum over the index.
    pub fn rank<Q: LookupKey<T> + Drop>(&self, value: Q) -> usize
        ensures value { result ≡ rank Q.order (concat self.now.nodes) value }
        ensures at_rank { has_equal Q.order (concat self.now.nodes) value ≡ true
            → slice_get (concat self.now.nodes) result
            ≡ equal_element Q.order (concat self.now.nodes) value }
        ensures inside { has_equal Q.order (concat self.now.nodes) value ≡ true
            → result < length (concat self.now.nodes) }
        ensures before { AllWithin (λ x. Q.order x value ≡ Less)
            (concat self.now.nodes) 0 result }
    {
        self.count_before(Bound::Included(self.by_item(&value)))
    }

    /// Returns the position of the item equal to the value, if any.
    ///
    /// # Examples
    ///
    /// ```
    /// let mut set: set::BTreeSet<u64, Vec<u64>> = set::BTreeSet::new(alloc);
    /// for number in [10, 20, 30] {
    ///     set.insert(number)?;
    /// }
    /// assert!(rt; set.index_of(&20) == Some(1) && set.index_of(&25).is_none());
    /// ```
    ///
    /// # Complexity
    ///
    /// Makes two binary searches and a sum over the index.
    pub fn index_of<Q: LookupKey<T> + Drop>(&self, value: Q) -> Option<usize>
        ensures value { result ≡ index_of Q.order (concat self.now.nodes) value }
        ensures at_index { IfSome result (λ i. slice_get (concat self.now.nodes) i
            ≡ equal_element Q.order (concat self.now.nodes) value) }
        ensures inside { IfSome result (λ i. i < length (concat self.now.nodes)) }
    {
        self.position_by(&mut self.by_item(&value)).ok()
    }

    /// Returns the position of the first item that the probe finds Equal.
    ///
    /// Returns `Err` with the number of items that it finds Less if it finds none Equal. The probe
    /// must find the items in order.
    ///
    /// # Examples
    ///
    /// ```
    /// # use indexset::base::probe::ByItem;
    /// let tree: set::BTreeSet<u64, Vec<u64>> = set::BTreeSet::from_iter(alloc, [5, 10, 15])?;
    /// assert!(rt; tree.position_by(&mut ByItem::new(&10)) == Ok(1));
    /// assert!(rt; tree.position_by(&mut ByItem::new(&12)) == Err(2));
    /// ```
    ///
    /// # Complexity
    ///
    /// Makes two binary searches, as `locate_by`.
    pub fn position_by<P: Probe<T>>(&self, probe: &mut P) -> Result<usize, usize>
        requires { IsParted (P.answer probe.old) (concat self.now.nodes) }

        // Result.
        ensures found { IfOk result (λ i. position (λ x. is_eq (P.answer probe.old x))
            (concat self.now.nodes) ≡ Some i) }
        ensures absent { IfErr result (λ _. position (λ x. is_eq (P.answer probe.old x))
            (concat self.now.nodes) ≡ None) }
        ensures gap { IfErr result (λ i. i ≡ less_count (P.answer probe.old)
            (concat self.now.nodes)) }

        // Contents.
        ensures fixed { P.answer probe.new ≡ P.answer probe.old }
        ensures comparisons { P.asked probe.new ≤ P.asked probe.old +
            (digits (length self.now.nodes) + digits self.now.size + 1) }
    {
        self.recall_invariant();
        match self.locate_by(probe) {
            Ok(place) => Ok(self.position(place)),
            Err(place) => Err(self.position(place)),
        }
    }

    /// Returns the number of items before the start, a bound given by a comparator.
    ///
    /// The comparator must find the items in order.
    ///
    /// ```
    /// # use indexset::base::probe::ByItem;
    /// let tree: set::BTreeSet<u64, Vec<u64>> = set::BTreeSet::from_iter(alloc, [5, 10, 15])?;
    /// assert!(rt; tree.count_before(Bound::Included(ByItem::new(&10))) == 1);
    /// ```
    pub fn count_before<P: Probe<T> + Drop>(&self, start: Bound<P>) -> usize
        requires { IfBounded (λ p. IsParted (P.answer p) (concat self.now.nodes)) start }
        ensures { result ≡ count_by (is_before (λ x p. P.answer p x) start)
            (concat self.now.nodes) }
    {
        self.position(self.place_from(start))
    }

    /// Returns the number of items that are not past the end, a bound given by a comparator.
    ///
    /// The comparator must find the items in order.
    ///
    /// ```
    /// # use indexset::base::probe::ByItem;
    /// let tree: set::BTreeSet<u64, Vec<u64>> = set::BTreeSet::from_iter(alloc, [5, 10, 15])?;
    /// assert!(rt; tree.count_up_to(Bound::Included(ByItem::new(&10))) == 2);
    /// ```
    pub fn count_up_to<P: Probe<T> + Drop>(&self, end: Bound<P>) -> usize
        requires { IfBounded (λ p. IsParted (P.answer p) (concat self.now.nodes)) end }
        ensures { result ≡ count_by (is_up_to_end (λ x p. P.answer p x) end)
            (concat self.now.nodes) }
    {
        self.position(self.place_to(end))
    }

    /// Returns the item at a position, counted from 0, or `None` past the end.
    ///
    /// # Examples
    ///
    /// ```
    /// let mut board: set::BTreeSet<u64, Vec<u64>> = set::BTreeSet::new(alloc);
    /// for score in [30, 10, 20] {
    ///     board.insert(score)?;
    /// }
    /// assert!(rt; board.get_index(1) == Some(&20) && board.get_index(3).is_none());
    /// ```
    ///
    /// # Complexity
    ///
    /// Makes no comparison.
    pub fn get_index(&self, i: usize) -> Option<&T>
        ensures { option_copied result ≡ slice_get (concat self.now.nodes) i }
    {
        let (node, offset) = self.place_at(i)?;
        self.nodes[node].get_ith(offset)
    }

    /// Returns a double-ended iterator over the items at a range of positions, in order.
    ///
    /// The bounds are clipped to the length.
    ///
    /// # Examples
    ///
    /// ```
    /// // The second page of two items each.
    /// let mut set: set::BTreeSet<u64, Vec<u64>> = set::BTreeSet::new(alloc);
    /// for number in [5, 10, 15, 20, 25] {
    ///     set.insert(number)?;
    /// }
    /// let page = set.range_idx(2..4);
    /// assert!(rt; page.copied().eq([15, 20]));
    /// ```
    ///
    /// # Complexity
    ///
    /// Makes no comparison.
    pub fn range_idx<R: PositionRange + Drop>(&self, range: R) -> Range<'_, T, Node>
        ensures rest { result ≡ in_positions (concat self.now.nodes) (R.start range)
            (R.end range) }
        ensures ascending { IsAscending T.cmp result }
        ensures runs { ShowsInOrder (deref {X = T}) }
        ensures runs_back { ShowsInReverse (deref {X = T}) }
    {
        let to = end_position(range.end_bound(), self.len);
        let from = first_position(range.start_bound(), self.len).min(to);
        self.range_between(self.place_after(from), self.place_after(to))
    }

    /// Returns the number of items before a place.
    ///
    /// A place is a node and an offset of at most its length, as `locate_by` returns it.
    ///
    /// # Examples
    ///
    /// ```
    /// let nodes = vec![in alloc; vec![in alloc; 5, 10]?, vec![in alloc; 15]?]?;
    /// let tree: set::BTreeSet<u64, Vec<u64>> = set::BTreeSet::from_nodes(nodes, 64, 0)?;
    /// assert!(rt; tree.position((1, 0)) == 2);
    /// ```
    ///
    /// # Complexity
    ///
    /// Makes no comparison.
    pub fn position(&self, place: (usize, usize)) -> usize
        requires { IsPlace self.now.nodes place }
        ensures { result ≡ items_before self.now.nodes place }
    {
        self.recall_invariant();
        let (node, offset) = place;
        self.index
            .prefix::<T, Node, OfNode>(node, self.nodes.as_slice())
            + offset
    }

    /// Returns the place of the item at a position, counted from 0, or `None` past the end.
    ///
    /// # Examples
    ///
    /// ```
    /// let nodes = vec![in alloc; vec![in alloc; 5, 10]?, vec![in alloc; 15]?]?;
    /// let tree: set::BTreeSet<u64, Vec<u64>> = set::BTreeSet::from_nodes(nodes, 64, 0)?;
    /// assert!(rt; tree.place_at(2) == Some((1, 0)) && tree.place_at(3).is_none());
    /// ```
    ///
    /// # Complexity
    ///
    /// Makes no comparison.
    pub fn place_at(&self, i: usize) -> Option<(usize, usize)>
        ensures { MatchOption result (length (concat self.now.nodes) ≤ i)
            (λ p. (p.0 < length self.now.nodes) × (p.1 < length (node_at self.now.nodes p.0))
            × (items_before self.now.nodes p ≡ i)) }
    {
        self.index.find::<T, Node, OfNode>(i, self.nodes.as_slice())
    }

    // Returns the place after the first `i` items.
    fn place_after(&self, i: usize) -> (usize, usize)
        requires { i ≤ length (concat self.now.nodes) }
        ensures place { IsPlace self.now.nodes result }
        ensures before { items_before self.now.nodes result ≡ i }
    {
        if i == 0 {
            return (0, 0);
        }
        let Some((node, offset)) = self.place_at(i - 1) else {
            unreachable!()
        };
        (node, offset + 1)
    }
}
