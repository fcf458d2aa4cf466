//! Look-ups of items, and the first and the last item.
ghost use Rattle.std.specs.Prelude.{◌≡◌, ℕ, ◌+◌, ◌≤◌, ◌==◌, find, length};
ghost use Rattle.std.specs.List.{All};
ghost use Rattle.std.specs.Option.{option_copied};
ghost use Rattle.std.specs.Ordering.{is_eq};
ghost use Rattle.indexset_core.specs.Digits.{digits};
ghost use Rattle.indexset_core.specs.Nodes.{concat, node_lengths};
ghost use Rattle.indexset_core.specs.Parted.{IsParted};
ghost use Rattle.indexset_core.specs.Order.{equal_element, has_equal};
ghost use Rattle.indexset_replica.specs.Replica.{first_item, last_item};

use super::Replica;
use super::places::{item_before, item_from};
use indexset_core::item_iter::OfVec;
use indexset_core::locate::locate_by;
use indexset_core::lookup_key::LookupKey;
use indexset_core::probe::{ByItem, Probe};

impl<T: Ord + Clone + Drop> Replica<T> {
    /// Returns the item equal to the value, if any.
    ///
    /// A key finds the pair of that key, and the first one of numbered pairs; a numbered pair finds
    /// the pair with its key and its number.
    ///
    /// # Examples
    ///
    /// ```
    /// let mut copy: Replica<Pair<u64, u64>> = Replica::new(alloc, 0);
    /// copy.apply(&ChangeEvent::CreateNode {
    ///     event_id: Id::from(0),
    ///     max_value: Pair { key: 5, value: 50 },
    /// })?;
    /// assert!(rt; copy.get(&5).is_some() && copy.get(&6).is_none());
    /// ```
    ///
    /// # Complexity
    ///
    /// Makes two binary searches, one among the nodes and one in a node.
    pub fn get<Q: LookupKey<T> + Drop>(&self, value: Q) -> Option<&T>
        ensures { option_copied result
            ≡ equal_element Q.order (concat self.now.nodes) value }
    {
        self.get_by(&mut self.probe(&value))
    }

    // Returns the comparator of a key, which finds the items in order, as the nodes ascend.
    pub(super) fn probe<'a, Q: LookupKey<T>>(&self, key: &'a Q) -> ByItem<'a, Q>
        ensures key { result ≡ (key.now, 0) }
        ensures parted { IsParted (λ x. Q.order x result.0) (concat self.now.nodes) }
    {
        let _nodes = &self.nodes;
        ByItem::new(key)
    }

    /// Returns true if the replica contains an item equal to the value.
    ///
    /// A key is compared with the keys of pairs.
    ///
    /// # Examples
    ///
    /// ```
    /// let nodes = vec![in alloc; vec![in alloc; 10, 20]?, vec![in alloc; 30]?]?;
    /// let replica = Replica::from_nodes(nodes, 3)?;
    /// assert!(rt; replica.contains(&20) && !replica.contains(&25));
    /// ```
    ///
    /// # Complexity
    ///
    /// Makes two binary searches, as `get`.
    pub fn contains<Q: LookupKey<T> + Drop>(&self, value: Q) -> bool
        ensures { result ≡ has_equal Q.order (concat self.now.nodes) value }
    {
        self.get(value).is_some()
    }

    /// Returns the first item that the comparator finds equal, if any.
    ///
    /// The comparator must find the items in order.
    ///
    /// # Examples
    ///
    /// ```
    /// # use indexset::base::probe::ByItem;
    /// let nodes = vec![in alloc; vec![in alloc; 10, 20]?, vec![in alloc; 30]?]?;
    /// let replica = Replica::from_nodes(nodes, 3)?;
    /// assert!(rt; replica.get_by(&mut ByItem::new(&20)) == Some(&20));
    /// ```
    ///
    /// # Complexity
    ///
    /// Makes two binary searches, as `get`, and at most one comparison more.
    pub fn get_by<P: Probe<T>>(&self, probe: &mut P) -> Option<&T>
        requires { IsParted (P.answer probe.old) (concat self.now.nodes) }
        ensures value { option_copied result
            ≡ find (λ x. is_eq (P.answer probe.old x)) (concat self.now.nodes) }
        ensures fixed { P.answer probe.new ≡ P.answer probe.old }
        ensures comparisons { (size : ℕ) → All (λ n. n ≤ size) (node_lengths self.now.nodes)
            → P.asked probe.new ≤ P.asked probe.old
            + (digits (length self.now.nodes) + digits size + 1) }
    {
        match locate_by::<T, Vec<T>, OfVec, P>(self.nodes.as_slice(), probe) {
            Ok((node, offset)) => {
                let items = self.nodes[node].as_slice();
                Some(&items[offset])
            }
            Err(_) => None,
        }
    }

    /// Returns true if the replica contains no items.
    ///
    /// # Examples
    ///
    /// ```
    /// let replica: Replica<u64> = Replica::new(alloc, 0);
    /// assert!(rt; replica.is_empty());
    /// ```
    ///
    /// # Complexity
    ///
    /// Takes constant time.
    pub fn is_empty(&self) -> bool
        ensures { result ≡ (length (concat self.now.nodes) == 0) }
    {
        self.nodes.is_empty()
    }

    /// Returns the first item, which is the least, if any.
    ///
    /// # Examples
    ///
    /// ```
    /// let nodes = vec![in alloc; vec![in alloc; 10, 20]?, vec![in alloc; 30]?]?;
    /// let replica = Replica::from_nodes(nodes, 3)?;
    /// assert!(rt; replica.first() == Some(&10));
    /// ```
    ///
    /// # Complexity
    ///
    /// Takes constant time.
    pub fn first(&self) -> Option<&T>
        ensures { option_copied result ≡ first_item (concat self.now.nodes) }
    {
        item_from(self.nodes.as_slice(), 0)
    }

    /// Returns the last item, which is the greatest, if any.
    ///
    /// # Examples
    ///
    /// ```
    /// let nodes = vec![in alloc; vec![in alloc; 10, 20]?, vec![in alloc; 30]?]?;
    /// let replica = Replica::from_nodes(nodes, 3)?;
    /// assert!(rt; replica.last() == Some(&30));
    /// ```
    ///
    /// # Complexity
    ///
    /// Takes constant time.
    pub fn last(&self) -> Option<&T>
        ensures { option_copied result ≡ last_item (concat self.now.nodes) }
    {
        let nodes = self.nodes.as_slice();
        item_before(nodes, nodes.len())
    }
}
