//! The retention of the items that a closure selects.
ghost use Rattle.std.specs.Prelude.{◌≡◌, ◌==◌, ◌<◌, ◌≤◌, not, length, take};
ghost use Rattle.std.specs.Fn.{CalledAtMut};
ghost use Rattle.std.specs.List.Retain.{RetainsInTurn};
ghost use Rattle.indexset_spine.specs.NodeList.{items};
ghost use Rattle.indexset_core.specs.Nodes.{vec_items};
ghost use Rattle.indexset_spine.specs.Edits.{RetainsTo, RetainsNodes};

use super::Spine;
use crate::lengths;
use indexset_core::item_iter::OfVec;

impl<T: Drop> Spine<T> {
    /// Retains the items for which the closure returns true, as it left them.
    ///
    /// The closure is called once for each item, in order. Each item stays in its node. An emptied
    /// node is removed, unless all are. It allocates nothing.
    pub fn retain_mut<F: FnMut(&mut T) -> bool>(&mut self, f: F)
        requires { F.IsAlwaysCallable f }
        ensures nodes { RetainsNodes (CalledAtMut F.FnMut) f self.old.nodes self.new.nodes }
        ensures kept { RetainsInTurn (CalledAtMut F.FnMut) f (items self.old) (items self.new) }
        ensures size { self.new.size ≡ self.old.size }
    {
        retain_nodes(&mut self.nodes, f);
        self.len = lengths::count_items(self.nodes.as_slice());
        self.index.recall_bounds();
        self.index
            .rebuild::<T, Vec<T>, OfVec>(self.nodes.as_slice());
    }
}

// Retains in each node the items for which the closure returns true, and the nodes that have one
// left, or one empty node.
fn retain_nodes<T: Drop, F: FnMut(&mut T) -> bool>(nodes: &mut Vec<Vec<T>>, mut f: F)
    requires callable { F.IsAlwaysCallable f }
    requires some { 0 < length nodes.old.items }
    ensures { RetainsNodes (CalledAtMut F.FnMut) f (vec_items nodes.old.items)
        (vec_items nodes.new.items) }
{
    let alloc = *nodes.allocator();
    nodes.retain_mut(
        move |node|
            requires { F.IsAlwaysCallable f }
            ensures kept { RetainsTo (CalledAtMut F.FnMut) f.entry node.old.items node.new.items
                f.exit }
            ensures callable { F.IsAlwaysCallable f.exit }
            ensures some { result ≡ not (length node.new.items == 0) }
        {
            retain_node(node, &mut f);
            !node.is_empty()
        },
    );
    if nodes.is_empty() {
        nodes.push_reserved(Vec::new(alloc));
    }
}

// Retains the items for which the closure returns true: after a removal, each is swapped with the
// first removed item.
fn retain_node<T: Drop, F: FnMut(&mut T) -> bool>(node: &mut Vec<T>, f: &mut F)
    requires { F.IsAlwaysCallable f.old }
    ensures kept { RetainsTo (CalledAtMut F.FnMut) f.old node.old.items node.new.items f.new }
    ensures callable { F.IsAlwaysCallable f.new }
{
    let items = node.as_mut_slice();
    let mut gone = 0;
    for i in 0..items.len() {
        if !f(&mut items[i]) {
            gone += 1;
        } else if 0 < gone {
            items.swap(i - gone, i);
        }
    }
    let kept = items.len() - gone;
    node.truncate(kept);
}
