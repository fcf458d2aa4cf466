//! The change that an event makes to the nodes of a replica and to their index.
ghost use Rattle.std.specs.Prelude.{◌≡◌, ◌<◌, [], ◌∷◌, IfOk, OnOk, IfErr};
ghost use Rattle.std.specs.Prelude.{OnErr, unwrap_or, vec_len, vec_capacity};
ghost use Rattle.indexset_core.specs.Nodes.{node_lengths, IsNodeList, vec_items};
ghost use Rattle.indexset_index.specs.Blocks.{block_sums};
ghost use Rattle.indexset_replica.specs.Replica.{IsClonedEdit, IsEdit, IsEqualClone, misfit};
ghost use Rattle.indexset_events.specs.Replay.{unassigned};
ghost use Rattle.indexset_events.specs.declared.change.ChangeEventUnassigned.TheVariants.{
  InsertAt,
  RemoveAt,
  CreateNode,
  RemoveNode,
  SplitNode,
  MergeNodes,
};

use super::index::NodeIndex;
use super::places::{first_reaching, fits_at, fits_before, place_named};
use indexset_core::moves;
use indexset_core::refusal::Refusal;
use indexset_events::change::ChangeEvent;

/// Makes the change of an event, for any number of the event.
pub(super) fn carry_out<T: Ord + Clone + Drop>(
    nodes: &mut Vec<Vec<T>>,
    lengths: &mut NodeIndex,
    event: &ChangeEvent<T>,
) -> Result<(), Refusal>
    requires nodes { IsNodeList T.cmp (vec_items nodes.old.items) }
    requires lengths { lengths.old.sums ≡ block_sums (node_lengths (vec_items nodes.old.items)) }
    ensures done { OnOk result (IsClonedEdit T.cmp T.is_clone (vec_items nodes.old.items)
        (unassigned event.now) (vec_items nodes.new.items)) }
    ensures refusal { IfErr result (λ e. e
        ≡ unwrap_or (misfit T.cmp (vec_items nodes.old.items) (unassigned event.now))
        Refusal.Memory) }
    ensures unchanged { OnErr result (vec_items nodes.new.items ≡ vec_items nodes.old.items) }
    ensures lengths { lengths.new.sums ≡ block_sums (node_lengths (vec_items nodes.new.items)) }
{
    match event {
        ChangeEvent::InsertAt {
            max_value,
            value,
            index,
            ..
        } => insert_item(nodes, lengths, max_value, value, *index),
        ChangeEvent::RemoveAt {
            max_value,
            value,
            index,
            ..
        } => remove_item(nodes, lengths, max_value, value, *index),
        ChangeEvent::CreateNode { max_value, .. } => create_node(nodes, lengths, max_value),
        ChangeEvent::RemoveNode { max_value, .. } => remove_node(nodes, lengths, max_value),
        ChangeEvent::SplitNode {
            max_value,
            split_index,
            ..
        } => split_node(nodes, lengths, max_value, *split_index),
        ChangeEvent::MergeNodes {
            max_value,
            next_max_value,
            ..
        } => merge_nodes(nodes, lengths, max_value, next_max_value),
    }
}

// Inserts an item into the named node.
fn insert_item<T: Ord + Clone + Drop>(
    nodes: &mut Vec<Vec<T>>,
    lengths: &mut NodeIndex,
    name: &T,
    value: &T,
    index: usize,
) -> Result<(), Refusal>
    requires nodes { IsNodeList T.cmp (vec_items nodes.old.items) }
    requires lengths { lengths.old.sums ≡ block_sums (node_lengths (vec_items nodes.old.items)) }
    ensures done { OnOk result (IsClonedEdit T.cmp T.is_clone (vec_items nodes.old.items)
        (InsertAt name.now value.now index) (vec_items nodes.new.items)) }
    ensures refusal { IfErr result (λ e. e
        ≡ unwrap_or (misfit T.cmp (vec_items nodes.old.items) (InsertAt name.now value.now index))
        Refusal.Memory) }
    ensures unchanged { OnErr result (vec_items nodes.new.items ≡ vec_items nodes.old.items) }
    ensures lengths { lengths.new.sums ≡ block_sums (node_lengths (vec_items nodes.new.items)) }
{
    let place = place_named(nodes.as_slice(), name)?;
    if index > nodes[place].len() {
        return Err(Refusal::IndexOutside);
    }
    if !fits_at(nodes.as_slice(), place, index, value) {
        return Err(Refusal::OutOfOrder);
    }
    lengths.fits(1)?;
    let item = equal_clone(value)?;
    let node = &mut nodes[place];
    node.reserve(1)?;
    moves::insert_item(node, index, item);
    lengths.add_items(place, 1);
    Ok(())
}

// Removes the item at an index of the named node.
fn remove_item<T: Ord + Clone + Drop>(
    nodes: &mut Vec<Vec<T>>,
    lengths: &mut NodeIndex,
    name: &T,
    value: &T,
    index: usize,
) -> Result<(), Refusal>
    requires nodes { IsNodeList T.cmp (vec_items nodes.old.items) }
    requires lengths { lengths.old.sums ≡ block_sums (node_lengths (vec_items nodes.old.items)) }
    ensures done { OnOk result (IsEdit T.cmp (vec_items nodes.old.items)
        (RemoveAt name.now value.now index) (vec_items nodes.new.items)) }
    ensures refusal { IfErr result (λ e. e
        ≡ unwrap_or (misfit T.cmp (vec_items nodes.old.items) (RemoveAt name.now value.now index))
        Refusal.Memory) }
    ensures unchanged { OnErr result (vec_items nodes.new.items ≡ vec_items nodes.old.items) }
    ensures lengths { lengths.new.sums ≡ block_sums (node_lengths (vec_items nodes.new.items)) }
{
    let place = place_named(nodes.as_slice(), name)?;
    let node = &mut nodes[place];
    if index >= node.len() {
        return Err(Refusal::IndexOutside);
    }
    if node[index].cmp(value).is_ne() {
        return Err(Refusal::ValueDiffers);
    }
    if node.len() == 1 {
        return Err(Refusal::WouldBeEmpty);
    }
    moves::remove_item(node, index);
    lengths.take_items(place, 1);
    Ok(())
}

// Inserts a node with one item.
fn create_node<T: Ord + Clone + Drop>(
    nodes: &mut Vec<Vec<T>>,
    lengths: &mut NodeIndex,
    value: &T,
) -> Result<(), Refusal>
    requires nodes { IsNodeList T.cmp (vec_items nodes.old.items) }
    requires lengths { lengths.old.sums ≡ block_sums (node_lengths (vec_items nodes.old.items)) }
    ensures done { OnOk result (IsClonedEdit T.cmp T.is_clone (vec_items nodes.old.items)
        (CreateNode value.now) (vec_items nodes.new.items)) }
    ensures refusal { IfErr result (λ e. e
        ≡ unwrap_or (misfit T.cmp (vec_items nodes.old.items) (CreateNode value.now))
        Refusal.Memory) }
    ensures unchanged { OnErr result (vec_items nodes.new.items ≡ vec_items nodes.old.items) }
    ensures lengths { lengths.new.sums ≡ block_sums (node_lengths (vec_items nodes.new.items)) }
{
    let place = first_reaching(nodes.as_slice(), value);
    if !fits_before(nodes.as_slice(), place, value) {
        return Err(Refusal::OutOfOrder);
    }
    lengths.reserve_node(1)?;
    let node = room_for_node_of(nodes, value)?;
    moves::insert_item(nodes, place, node);
    lengths.insert_node(place, nodes.as_slice());
    Ok(())
}

// Reserves room for one more node, and returns a node with one item.
fn room_for_node_of<T: Ord + Clone + Drop>(
    nodes: &mut Vec<Vec<T>>,
    value: &T,
) -> Result<Vec<T>, Refusal>
    ensures nodes { nodes.new.items ≡ nodes.old.items }
    ensures room { OnOk result (vec_len nodes.new < vec_capacity nodes.new) }
    ensures node { IfOk result (λ node. (item : T) × IsEqualClone T.cmp T.is_clone value.now item
        × (node.items ≡ item ∷ [])) }
    ensures refusal { IfErr result (λ e. e ≡ Refusal.Memory) }
{
    nodes.reserve(1)?;
    let mut node = Vec::with_capacity(*nodes.allocator(), 1)?;
    node.push_reserved(equal_clone(value)?);
    Ok(node)
}

// Returns a clone that equals its source, so that the nodes ascend with it as with the source.
fn equal_clone<T: Ord + Clone + Drop>(value: &T) -> Result<T, Refusal>
    ensures clone { IfOk result (λ item. IsEqualClone T.cmp T.is_clone value.now item) }
    ensures refusal { IfErr result (λ e. e ≡ Refusal.Memory) }
{
    let item = value.clone()?;
    if item.cmp(value).is_ne() {
        return Err(Refusal::Memory);
    }
    Ok(item)
}

// Removes the named node.
fn remove_node<T: Ord + Clone + Drop>(
    nodes: &mut Vec<Vec<T>>,
    lengths: &mut NodeIndex,
    name: &T,
) -> Result<(), Refusal>
    requires nodes { IsNodeList T.cmp (vec_items nodes.old.items) }
    requires lengths { lengths.old.sums ≡ block_sums (node_lengths (vec_items nodes.old.items)) }
    ensures done { OnOk result (IsEdit T.cmp (vec_items nodes.old.items) (RemoveNode name.now)
        (vec_items nodes.new.items)) }
    ensures refusal { IfErr result (λ e. e
        ≡ unwrap_or (misfit T.cmp (vec_items nodes.old.items) (RemoveNode name.now))
        Refusal.Memory) }
    ensures unchanged { OnErr result (vec_items nodes.new.items ≡ vec_items nodes.old.items) }
    ensures lengths { lengths.new.sums ≡ block_sums (node_lengths (vec_items nodes.new.items)) }
{
    let place = place_named(nodes.as_slice(), name)?;
    let removed = moves::remove_item(nodes, place);
    lengths.remove_node(place, removed.len(), nodes.as_slice());
    Ok(())
}

// Splits the named node into its first items and the rest.
fn split_node<T: Ord + Clone + Drop>(
    nodes: &mut Vec<Vec<T>>,
    lengths: &mut NodeIndex,
    name: &T,
    split_index: usize,
) -> Result<(), Refusal>
    requires nodes { IsNodeList T.cmp (vec_items nodes.old.items) }
    requires lengths { lengths.old.sums ≡ block_sums (node_lengths (vec_items nodes.old.items)) }
    ensures done { OnOk result (IsEdit T.cmp (vec_items nodes.old.items)
        (SplitNode name.now split_index) (vec_items nodes.new.items)) }
    ensures refusal { IfErr result (λ e. e
        ≡ unwrap_or (misfit T.cmp (vec_items nodes.old.items) (SplitNode name.now split_index))
        Refusal.Memory) }
    ensures unchanged { OnErr result (vec_items nodes.new.items ≡ vec_items nodes.old.items) }
    ensures lengths { lengths.new.sums ≡ block_sums (node_lengths (vec_items nodes.new.items)) }
{
    let place = place_named(nodes.as_slice(), name)?;
    if split_index == 0 || split_index >= nodes[place].len() {
        return Err(Refusal::BadSplit);
    }
    nodes.reserve(1)?;
    lengths.reserve_node(0)?;
    let node = &mut nodes[place];
    let rest = node.split_off(split_index)?;
    lengths.take_items(place, rest.len());
    moves::insert_item(nodes, place + 1, rest);
    lengths.insert_node(place + 1, nodes.as_slice());
    Ok(())
}

// Merges the named node with the next one, which has the second name.
fn merge_nodes<T: Ord + Clone + Drop>(
    nodes: &mut Vec<Vec<T>>,
    lengths: &mut NodeIndex,
    name: &T,
    next_name: &T,
) -> Result<(), Refusal>
    requires nodes { IsNodeList T.cmp (vec_items nodes.old.items) }
    requires lengths { lengths.old.sums ≡ block_sums (node_lengths (vec_items nodes.old.items)) }
    ensures done { OnOk result (IsEdit T.cmp (vec_items nodes.old.items)
        (MergeNodes name.now next_name.now) (vec_items nodes.new.items)) }
    ensures refusal { IfErr result (λ e. e
        ≡ unwrap_or (misfit T.cmp (vec_items nodes.old.items) (MergeNodes name.now next_name.now))
        Refusal.Memory) }
    ensures unchanged { OnErr result (vec_items nodes.new.items ≡ vec_items nodes.old.items) }
    ensures lengths { lengths.new.sums ≡ block_sums (node_lengths (vec_items nodes.new.items)) }
{
    let place = place_named(nodes.as_slice(), name)?;
    let next = place_named(nodes.as_slice(), next_name)?;
    if next != place + 1 {
        return Err(Refusal::NotNeighbours);
    }
    let count = nodes[next].len();
    let node = &mut nodes[place];
    node.reserve(count)?;
    // The sum of all lengths fits a usize.
    let _total = lengths.total();
    let mut rest = moves::remove_item(nodes, next);
    lengths.remove_node(next, count, nodes.as_slice());
    lengths.add_items(place, count);
    moves::move_tail(&mut rest, 0, &mut nodes[place]);
    Ok(())
}
