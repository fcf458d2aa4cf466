//! The places of nodes and items in a replica.
ghost use Rattle.std.specs.Prelude.{◌≡◌, ◌+◌, ◌<◌, ◌≤◌, Some, None, not, [], ◌∷◌};
ghost use Rattle.std.specs.Prelude.{length, take, drop, insert, IfOk, OnOk, IfErr};
ghost use Rattle.std.specs.Option.{option_copied};
ghost use Rattle.std.specs.List.{All, position_or_len, splice};
ghost use Rattle.indexset_core.specs.Nodes.{concat, node_at, node_lengths, IsNodeList, vec_items};
ghost use Rattle.indexset_replica.specs.Replica.{first_item, is_between, last_item};
ghost use Rattle.indexset_events.specs.Attach.{attach_index, attach_refusal};
ghost use Rattle.indexset_events.specs.Nodes.{is_ascending};
ghost use Rattle.indexset_events.specs.Replay.{has_name, node_named, reaches};

use indexset_core::item_iter::OfVec;
use indexset_core::locate::node_by;
use indexset_core::probe::ByItem;
use indexset_core::refusal::Refusal;

/// Returns the place of the first node whose last item is not below the value, or the number of
/// nodes.
pub(super) fn first_reaching<T: Ord>(nodes: &[Vec<T>], value: &T) -> usize
    requires { IsNodeList T.cmp (vec_items nodes.now) }
    ensures place { result ≡ position_or_len (reaches T.cmp value.now) (vec_items nodes.now) }
    ensures within { result ≤ length nodes.now }
{
    if nodes.is_empty() {
        return 0;
    }
    let place = node_by::<T, Vec<T>, OfVec, ByItem<'_, T>>(nodes, &mut ByItem::new(value));
    if ends_less(nodes[place].as_slice(), value) {
        place + 1
    } else {
        place
    }
}

/// Returns whether the last item is below the value.
fn ends_less<T: Ord>(node: &[T], value: &T) -> bool
    ensures { result ≡ not (reaches T.cmp value.now node.now) }
{
    match node.last() {
        Some(last) => last.cmp(value).is_lt(),
        None => false,
    }
}

/// Returns the place of the node whose last item equals the name.
pub(super) fn place_named<T: Ord>(nodes: &[Vec<T>], name: &T) -> Result<usize, Refusal>
    requires { IsNodeList T.cmp (vec_items nodes.now) }
    ensures named { IfOk result (λ place. node_named T.cmp (vec_items nodes.now) name.now
        ≡ Some place) }
    ensures absent { IfErr result (λ e. node_named T.cmp (vec_items nodes.now) name.now ≡ None) }
    ensures refusal { IfErr result (λ e. e ≡ Refusal.NoSuchNode) }
{
    if nodes.is_empty() {
        return Err(Refusal::NoSuchNode);
    }
    let place = node_by::<T, Vec<T>, OfVec, ByItem<'_, T>>(nodes, &mut ByItem::new(name));
    if is_named(nodes[place].as_slice(), name) {
        Ok(place)
    } else {
        Err(Refusal::NoSuchNode)
    }
}

/// Returns whether the last item equals the name.
fn is_named<T: Ord>(node: &[T], name: &T) -> bool
    ensures { result ≡ has_name T.cmp name.now node.now }
{
    match node.last() {
        Some(last) => last.cmp(name).is_eq(),
        None => false,
    }
}

/// Returns the place of a node among the nodes, if it can be inserted.
pub(super) fn place_of_node<T: Ord>(nodes: &[Vec<T>], node: &[T]) -> Result<usize, Refusal>
    requires { IsNodeList T.cmp (vec_items nodes.now) }

    // Result.
    ensures place { IfOk result (λ place. place
        ≡ attach_index T.cmp (vec_items nodes.now) node.now) }
    ensures within { IfOk result (λ place. place ≤ length nodes.now) }

    // Failure.
    ensures good { OnOk result (attach_refusal T.cmp (length node.now) (vec_items nodes.now)
        node.now ≡ None) }
    ensures refusal { IfErr result (λ e. attach_refusal T.cmp (length node.now)
        (vec_items nodes.now) node.now ≡ Some e) }

    // Nodes.
    ensures nodes { IfOk result (λ place. IsNodeList T.cmp
        (insert (vec_items nodes.now) place node.now)) }
{
    let Some(first) = node.first() else {
        return Err(Refusal::Empty);
    };
    if !node.is_sorted_by(|item, next| item.cmp(next).is_lt()) {
        return Err(Refusal::Unsorted);
    }
    let place = first_reaching(nodes, first);
    if let Some(next) = item_from(nodes, place) {
        if !node[node.len() - 1].cmp(next).is_lt() {
            return Err(Refusal::Overlaps);
        }
    }
    Ok(place)
}

/// Returns the last item of the nodes before a place.
pub(super) fn item_before<T>(nodes: &[Vec<T>], place: usize) -> Option<&T>
    requires filled { All (λ n. 1 ≤ n) (node_lengths (vec_items nodes.now)) }
    requires place { place ≤ length nodes.now }
    ensures { option_copied result ≡ last_item (concat (take place (vec_items nodes.now))) }
{
    nodes[..place].last()?.last()
}

/// Returns the first item of the nodes from a place on.
pub(super) fn item_from<T>(nodes: &[Vec<T>], place: usize) -> Option<&T>
    requires { All (λ n. 1 ≤ n) (node_lengths (vec_items nodes.now)) }
    ensures { option_copied result ≡ first_item (concat (drop place (vec_items nodes.now))) }
{
    nodes.get(place)?.first()
}

/// Returns whether the nodes ascend with the value inserted at an index of the node at a place.
pub(super) fn fits_at<T: Ord>(nodes: &[Vec<T>], place: usize, index: usize, value: &T) -> bool
    requires nodes { IsNodeList T.cmp (vec_items nodes.now) }
    requires place { place < length nodes.now }
    requires index { index ≤ length (node_at (vec_items nodes.now) place) }
    ensures { result ≡ is_ascending T.cmp
        (concat (splice (vec_items nodes.now) place (place + 1)
        (insert (node_at (vec_items nodes.now) place) index value.now ∷ []))) }
{
    let node = nodes[place].as_slice();
    let before = node[..index].last().or(item_before(nodes, place));
    let after = node[index..].first().or(item_from(nodes, place + 1));
    is_between(before, value, after)
}

/// Returns whether the nodes ascend with a node of the value inserted at a place.
pub(super) fn fits_before<T: Ord>(nodes: &[Vec<T>], place: usize, value: &T) -> bool
    requires nodes { IsNodeList T.cmp (vec_items nodes.now) }
    requires place { place ≤ length nodes.now }
    ensures { result ≡ is_ascending T.cmp
        (concat (insert (vec_items nodes.now) place (value.now ∷ []))) }
{
    is_between(item_before(nodes, place), value, item_from(nodes, place))
}

/// Returns whether the value is above the item before it, if any, and below the item after it, if
/// any.
fn is_between<T: Ord>(before: Option<&T>, value: &T, after: Option<&T>) -> bool
    ensures { result ≡ is_between T.cmp (option_copied before.entry) value.now
        (option_copied after.entry) }
{
    let above = match before {
        Some(item) => item.cmp(value).is_lt(),
        None => true,
    };
    let below = match after {
        Some(item) => value.cmp(item).is_lt(),
        None => true,
    };
    above && below
}
