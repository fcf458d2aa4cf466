//! Positions in a replica: ranks, items by position, and ranges of positions.
ghost use Rattle.std.specs.Prelude.{◌≡◌, ◌<◌, true, IfSome, length, slice_get};
ghost use Rattle.std.specs.declared.cmp.Ordering.TheVariants.{Less};
ghost use Rattle.std.specs.List.{AllWithin, count_by};
ghost use Rattle.std.specs.Map.Iter.{ShowsInOrder, ShowsInReverse, deref};
ghost use Rattle.std.specs.Option.{option_copied};
ghost use Rattle.indexset_core.specs.KeyRange.{IfBounded, in_positions, is_before, is_up_to_end};
ghost use Rattle.indexset_core.specs.Nodes.{concat};
ghost use Rattle.indexset_core.specs.Parted.{IsParted};
ghost use Rattle.indexset_core.specs.Order.{equal_element, has_equal, index_of, rank};
ghost use Rattle.indexset_replica.specs.Keyed.{count_equal};

use super::Replica;
use super::iter::Iter;
use indexset_core::item_iter::OfVec;
use indexset_core::locate::{locate_by, place_from, place_to};
use indexset_core::lookup_key::LookupKey;
use indexset_core::position_range::{PositionRange, end_position, first_position};
use indexset_core::probe::{ByItem, Probe};
use std::ops::Bound;

impl<T: Ord + Clone + Drop> Replica<T> {
    /// Returns the number of items.
    ///
    /// # Examples
    ///
    /// ```
    /// let nodes = vec![in alloc; vec![in alloc; 10, 20]?, vec![in alloc; 30]?]?;
    /// let replica = Replica::from_nodes(nodes, 3)?;
    /// assert!(rt; replica.len() == 3);
    /// ```
    ///
    /// # Complexity
    ///
    /// Takes constant time.
    pub fn len(&self) -> usize
        ensures { result ≡ length (concat self.now.nodes) }
    {
        self.lengths.total()
    }

    /// Returns the number of items below the value.
    ///
    /// For a key, that is the number of pairs with a lower key; for a numbered pair, also of pairs
    /// with its key and a lower number.
    ///
    /// # Examples
    ///
    /// ```
    /// let nodes = vec![in alloc; vec![in alloc; 10, 20]?, vec![in alloc; 30]?]?;
    /// let board = Replica::from_nodes(nodes, 3)?;
    /// assert!(rt; board.rank(&30) == 2 && board.rank(&25) == 2);
    ///
    /// let nodes =
    ///     vec![in alloc; vec![in alloc; MultiPair::new(1, 100, 0), MultiPair::new(1, 101, 1)]?]?;
    /// let replica: Replica<MultiPair<u64, u64>> = Replica::from_nodes(nodes, 2)?;
    /// assert!(rt; replica.rank(&1) == 0 && replica.rank(&MultiPair::new(1, 101, 1)) == 1);
    /// ```
    ///
    /// # Complexity
    ///
    /// Makes two binary searches and a sum over the index.
    pub fn rank<Q: LookupKey<T> + Drop>(&self, value: Q) -> usize
        ensures value { result ≡ rank Q.order (concat self.now.nodes) value }
        ensures at_rank { has_equal Q.order (concat self.now.nodes) value ≡ true
            → slice_get (concat self.now.nodes) result
            ≡ equal_element Q.order (concat self.now.nodes) value }
        ensures inside { has_equal Q.order (concat self.now.nodes) value ≡ true
            → result < length (concat self.now.nodes) }
        ensures before { AllWithin (λ x. Q.order x value ≡ Less)
            (concat self.now.nodes) 0 result }
    {
        self.count_before(Bound::Included(self.probe(&value)))
    }

    /// Returns the position of the item equal to the value, if any.
    ///
    /// For a key, that is the position of its first pair.
    ///
    /// # Examples
    ///
    /// ```
    /// let nodes = vec![in alloc; vec![in alloc; 10, 20]?, vec![in alloc; 30]?]?;
    /// let board = Replica::from_nodes(nodes, 3)?;
    /// assert!(rt; board.index_of(&20) == Some(1) && board.index_of(&25).is_none());
    /// ```
    ///
    /// # Complexity
    ///
    /// Makes two binary searches and a sum over the index.
    pub fn index_of<Q: LookupKey<T> + Drop>(&self, value: Q) -> Option<usize>
        ensures value { result ≡ index_of Q.order (concat self.now.nodes) value }
        ensures at_index { IfSome result (λ i. slice_get (concat self.now.nodes) i
            ≡ equal_element Q.order (concat self.now.nodes) value) }
        ensures inside { IfSome result (λ i. i < length (concat self.now.nodes)) }
    {
        match locate_by::<T, Vec<T>, OfVec, ByItem<'_, Q>>(
            self.nodes.as_slice(),
            &mut ByItem::new(&value),
        ) {
            Ok(place) => Some(self.lengths.position(self.nodes.as_slice(), place)),
            Err(_) => None,
        }
    }

    /// Returns the number of items equal to the value.
    ///
    /// For a key, that is the number of its pairs.
    ///
    /// # Examples
    ///
    /// ```
    /// let nodes =
    ///     vec![in alloc; vec![in alloc; MultiPair::new(1, 100, 0), MultiPair::new(1, 101, 1)]?]?;
    /// let replica: Replica<MultiPair<u64, u64>> = Replica::from_nodes(nodes, 2)?;
    /// assert!(rt; replica.count(&1) == 2 && replica.count(&2) == 0);
    /// ```
    ///
    /// # Complexity
    ///
    /// Makes four binary searches and two sums over the index.
    pub fn count<Q: LookupKey<T> + Drop>(&self, value: Q) -> usize
        ensures { result ≡ count_equal Q.order (concat self.now.nodes) value }
    {
        let past = self.count_up_to(Bound::Included(self.probe(&value)));
        past - self.count_before(Bound::Included(self.probe(&value)))
    }

    /// Returns the item at a position, counted from 0, or `None` past the end.
    ///
    /// # Examples
    ///
    /// ```
    /// let nodes = vec![in alloc; vec![in alloc; 10, 20]?, vec![in alloc; 30]?]?;
    /// let board = Replica::from_nodes(nodes, 3)?;
    /// assert!(rt; board.get_index(2) == Some(&30) && board.get_index(3).is_none());
    /// ```
    ///
    /// # Complexity
    ///
    /// Takes logarithmic time.
    pub fn get_index(&self, i: usize) -> Option<&T>
        ensures { option_copied result ≡ slice_get (concat self.now.nodes) i }
    {
        let (node, offset) = self.lengths.place(self.nodes.as_slice(), i)?;
        let items = self.nodes[node].as_slice();
        Some(&items[offset])
    }

    /// Returns a double-ended iterator over the items at a range of positions, in order.
    ///
    /// The bounds are clipped to the length.
    ///
    /// ```
    /// // The second page of two items each.
    /// let nodes = vec![in alloc; vec![in alloc; 5, 10, 15]?, vec![in alloc; 20, 25]?]?;
    /// let copy = Replica::from_nodes(nodes, 0)?;
    /// let page = copy.range_idx(2..4);
    /// assert!(rt; page.copied().eq([15, 20]));
    /// ```
    pub fn range_idx<R: PositionRange + Drop>(&self, range: R) -> Iter<'_, T>
        ensures rest { result ≡ in_positions (concat self.now.nodes) (R.start range)
            (R.end range) }
        ensures runs { ShowsInOrder (deref {X = T}) }
        ensures runs_back { ShowsInReverse (deref {X = T}) }
    {
        let len = self.len();
        let to = end_position(range.end_bound(), len);
        let from = first_position(range.start_bound(), len).min(to);
        let nodes = self.nodes.as_slice();
        Iter::between(
            nodes,
            self.lengths.place_after(nodes, from),
            self.lengths.place_after(nodes, to),
        )
    }

    /// Returns the number of items before the start, a bound given by a comparator.
    ///
    /// The comparator must find the items in order.
    ///
    /// # Examples
    ///
    /// ```
    /// # use indexset::base::probe::ByItem;
    /// let nodes = vec![in alloc; vec![in alloc; 10, 20]?, vec![in alloc; 30]?]?;
    /// let replica = Replica::from_nodes(nodes, 3)?;
    /// assert!(rt; replica.count_before(Bound::Included(ByItem::new(&20))) == 1);
    /// ```
    ///
    /// # Complexity
    ///
    /// Makes two binary searches and a sum over the index.
    pub fn count_before<P: Probe<T> + Drop>(&self, start: Bound<P>) -> usize
        requires { IfBounded (λ p. IsParted (P.answer p) (concat self.now.nodes)) start }
        ensures { result ≡ count_by (is_before (λ x p. P.answer p x) start)
            (concat self.now.nodes) }
    {
        let nodes = self.nodes.as_slice();
        let place = place_from::<T, Vec<T>, OfVec, P>(nodes, start);
        self.lengths.position(nodes, place)
    }

    /// Returns the number of items that are not past the end, a bound given by a comparator.
    ///
    /// The comparator must find the items in order.
    ///
    /// # Examples
    ///
    /// ```
    /// # use indexset::base::probe::ByItem;
    /// let nodes = vec![in alloc; vec![in alloc; 10, 20]?, vec![in alloc; 30]?]?;
    /// let replica = Replica::from_nodes(nodes, 3)?;
    /// assert!(rt; replica.count_up_to(Bound::Included(ByItem::new(&20))) == 2);
    /// ```
    ///
    /// # Complexity
    ///
    /// Makes two binary searches and a sum over the index.
    pub fn count_up_to<P: Probe<T> + Drop>(&self, end: Bound<P>) -> usize
        requires { IfBounded (λ p. IsParted (P.answer p) (concat self.now.nodes)) end }
        ensures { result ≡ count_by (is_up_to_end (λ x p. P.answer p x) end)
            (concat self.now.nodes) }
    {
        let nodes = self.nodes.as_slice();
        let place = place_to::<T, Vec<T>, OfVec, P>(nodes, end);
        self.lengths.position(nodes, place)
    }
}
