//! Insertion of whole nodes.
ghost use Rattle.std.specs.Prelude.{◌≡◌, ◌+◌, ◌≤◌, true, length, slice_get};
ghost use Rattle.std.specs.Prelude.{None, IfOk, OnOk, IfErr, OnErr, IsOk};
ghost use Rattle.std.specs.List.{position_or_len};
ghost use Rattle.std.specs.Option.{option_map_or, unwrap_or};
ghost use Rattle.std.specs.Ordering.{is_lt};
ghost use Rattle.indexset_core.specs.Nodes.{concat, node_at};
ghost use Rattle.indexset_core.specs.Order.{IsAscending};
ghost use Rattle.indexset_events.specs.Attach.{attach_index, attached, attach_refusal};
ghost use Rattle.indexset_events.specs.Nodes.{is_ascending};
ghost use Rattle.indexset_events.specs.Replay.{reaches};

use super::BTreeSet;
use crate::nodes::insert_node;
use indexset_core::item_iter::OfNode;
use indexset_core::locate::node_by;
use indexset_core::node::NodeLike;
use indexset_core::probe::ByItem;
use indexset_core::refusal::{Refusal, Refused};
use indexset_events::nodes::is_ascending;

impl<T: Ord + Clone + Drop, Node: NodeLike<T>> BTreeSet<T, Node> {
    /// Inserts a node among the other nodes.
    ///
    /// It emits no event and consumes no event number.
    ///
    /// # Examples
    ///
    /// ```
    /// let mut tree: set::BTreeSet<u64, Vec<u64>> = set::BTreeSet::from_iter(alloc, [1, 2])?;
    /// tree.attach_node(vec![in alloc; 5, 10]?)?;
    /// assert!(rt; tree.node_count() == 2 && tree.last() == Some(&10));
    /// ```
    ///
    /// # Errors
    ///
    /// Fails with the first of these that applies: `Empty` if the node is empty; `TooLarge` if it
    /// has more items than the node size; `Unsorted` if its items do not ascend strictly;
    /// `Overlaps` if it does not lie entirely below or above each other node; `Memory`. A failed
    /// call returns the node in the error and changes nothing.
    pub fn attach_node(&mut self, node: Node) -> Result<(), Refused<Node>>
        // Contents.
        ensures ascending { OnOk result (IsAscending T.cmp (concat self.new.nodes)) }
        ensures count { OnOk result (length (concat self.new.nodes)
            ≡ length (concat self.old.nodes) + length (Node.list node)) }
        ensures next { self.new.next ≡ self.old.next }

        // Failure.
        ensures good { IsOk result → attach_refusal T.cmp self.old.size self.old.nodes
            (Node.list node) ≡ None }
        ensures refusal { IfErr result (λ e. e.cause ≡ unwrap_or
            (attach_refusal T.cmp self.old.size self.old.nodes (Node.list node)) Refusal.Memory) }
        ensures given_back { IfErr result (λ e. e.value ≡ node) }
        ensures unchanged { OnErr result (self.new ≡ self.old) }

        // Nodes.
        ensures nodes { OnOk result (self.new.nodes ≡ attached T.cmp self.old.nodes
            (Node.list node)) }
        ensures size { self.new.size ≡ self.old.size }
    {
        let place = match self.attach_place(&node) {
            Ok(place) => place,
            Err(cause) => return Err(Refused { value: node, cause }),
        };
        let count = node.len();
        insert_node(&mut self.nodes, &mut self.index, place, node)?;
        self.len += count;
        Ok(())
    }

    // Returns the place of a node among the others, if it can be inserted.
    fn attach_place(&self, node: &Node) -> Result<usize, Refusal>
        ensures place { IfOk result (λ place. place ≡ attach_index T.cmp self.now.nodes
            (Node.list node.now)) }
        ensures good { OnOk result (attach_refusal T.cmp self.now.size self.now.nodes
            (Node.list node.now) ≡ None) }
        ensures fits { OnOk result (length (concat self.now.nodes) + length (Node.list node.now)
            ≤ usize.MAX) }
        ensures refusal { IfErr result (λ e. e ≡ unwrap_or
            (attach_refusal T.cmp self.now.size self.now.nodes
            (Node.list node.now)) Refusal.Memory) }
    {
        let items = node.iter().as_slice();
        let Some(first) = items.first() else {
            return Err(Refusal::Empty);
        };
        if items.len() > self.size {
            return Err(Refusal::TooLarge);
        }
        if !is_ascending(items) {
            return Err(Refusal::Unsorted);
        }
        let place = self.nodes_below(first);
        if !self.starts_above(place, &items[items.len() - 1]) {
            return Err(Refusal::Overlaps);
        }
        if items.len() > usize::MAX - self.len {
            return Err(Refusal::Memory);
        }
        Ok(place)
    }

    // Returns whether the node at a place, if any, begins above an item.
    fn starts_above(&self, place: usize, value: &T) -> bool
        ensures { result ≡ option_map_or (λ x. is_lt (T.cmp value.now x))
            (slice_get (node_at self.now.nodes place) 0) true }
    {
        if place >= self.nodes.len() {
            return true;
        }
        let items = self.nodes[place].iter().as_slice();
        value.cmp(&items[0]).is_lt()
    }

    // Returns how many nodes end below an item.
    fn nodes_below(&self, value: &T) -> usize
        ensures { result ≡ position_or_len (reaches T.cmp value.now) self.now.nodes }
    {
        if self.nodes.is_empty() {
            return 0;
        }
        let node = node_by::<T, Node, OfNode, ByItem<'_, T>>(
            self.nodes.as_slice(),
            &mut ByItem::new(value),
        );
        match self.nodes[node].max() {
            Some(last) if last.cmp(value).is_lt() => node + 1,
            _ => node,
        }
    }
}
