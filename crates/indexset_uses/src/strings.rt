//! Maps whose keys are `String`s. A clone of a `String` has the same bytes, but is another value.
//! So the contracts describe the contents of the map and the numbers of the events, and describe
//! the items of events as clones.
ghost use Rattle.std.specs.Prelude.{◌≡◌, ◌+◌, ◌≤◌, ◌⊎◌, ℕ, List, length, false, map, unwrap_or};
ghost use Rattle.std.specs.Prelude.{None, Some, IfErr, IfOk, OnOk, OnErr, string_bytes};
ghost use Rattle.std.specs.List.{AllZip};
ghost use Rattle.std.specs.String.{string_cmp};
ghost use Rattle.indexset.specs.Words.{by_key, has_key, concat, key_removal_events};
ghost use Rattle.indexset.specs.Words.{apply_refusal, numbered_from, pair, put, put_events};
ghost use Rattle.indexset.specs.Words.{refusal_for, unassigned, value_of, without_key};
ghost use Rattle.indexset.specs.Words.{AreCopies, IsClonedStep, IsEventClone, IsNumberedFrom};

use crate::copies::apply_all;
use indexset::base::Text;
use indexset::base::pair::Pair;
use indexset::base::refusal::{Refusal, Refused};
use indexset::cdc::change::ChangeEvent;
use indexset::cdc::laws::numbered_by_place;
use indexset::concurrent::map::BTreeMap;
use indexset::replica::Replica;
use indexset::replica::laws::{clones, copies_keep};

/// The count of a name.
pub type Count = Pair<String, u64>;

/// Counts by name.
pub type Counts = BTreeMap<String, u64>;

/// Sets the count of a name, and returns the events, at most three.
///
/// They are those of the change, with clones of its names, numbered without a gap.
pub fn set_count(
    counts: &mut Counts,
    name: String,
    count: u64,
) -> Result<Vec<ChangeEvent<Count>>, Refused<(String, u64)>>
    // Result.
    ensures numbered { IfOk result (λ events. IsNumberedFrom counts.old.next events.items) }
    ensures at_most_three_events { IfOk result (λ events. length events.items ≤ 3) }
    ensures events { IfOk result (λ events. AllZip
        (IsEventClone (λ p q. (string_bytes q.key ≡ string_bytes p.key) × (q.value ≡ p.value)))
        (numbered_from counts.old.next (put_events (by_key string_cmp) counts.old.size
        counts.old.nodes (pair name count))) events.items) }

    // Contents.
    ensures contents { OnOk result (concat counts.new.nodes
        ≡ put (by_key string_cmp) (concat counts.old.nodes) (pair name count)) }
    ensures held { OnOk result (value_of string_cmp (concat counts.new.nodes) name ≡ Some count) }
    ensures next { IfOk result (λ events. counts.new.next ≡ counts.old.next + length events.items) }

    // Failure.
    ensures unchanged { OnErr result (counts.new ≡ counts.old) }
    ensures given_back { IfErr result (λ refused. refused.value ≡ (name, count)) }
    ensures cause { IfErr result (λ refused. refused.cause ≡ refusal_for counts.old.next (length
        (put_events (by_key string_cmp) counts.old.size counts.old.nodes (pair name count)))) }
{
    numbered_by_place::<Count>();
    let (_, events) = counts.insert_cdc(name, count)?;
    Ok(events)
}

/// Sets the count of a name in a map and in a replica whose nodes have copies of the map's items.
///
/// The replica then has copies again, with the same counts for the same texts.
///
/// # Errors
///
/// Nothing is changed, or the map has the count and the replica is behind.
pub fn set_in_both(
    counts: &mut Counts,
    copy: &mut Replica<Count>,
    name: String,
    count: u64,
) -> Result<(), Refusal>
    requires { AreCopies (by_key string_cmp)
        (λ p q. (string_bytes q.key ≡ string_bytes p.key) × (q.value ≡ p.value)) counts.old.nodes
        copy.old.nodes }
    ensures copies { OnOk result (AreCopies (by_key string_cmp)
        (λ p q. (string_bytes q.key ≡ string_bytes p.key) × (q.value ≡ p.value)) counts.new.nodes
        copy.new.nodes) }
    ensures contents { OnOk result (concat counts.new.nodes
        ≡ put (by_key string_cmp) (concat counts.old.nodes) (pair name count)) }
    ensures unchanged { OnOk result (map (map {B = List ℕ × ℕ} (λ p. (string_bytes p.key, p.value)))
        copy.new.nodes ≡ map (map {B = List ℕ × ℕ} (λ p. (string_bytes p.key, p.value)))
        counts.new.nodes) }
    ensures refused { IfErr result (λ refusal. ((counts.new ≡ counts.old) × (copy.new ≡ copy.old)
        × (refusal ≡ refusal_for counts.old.next (length (put_events (by_key string_cmp)
        counts.old.size counts.old.nodes (pair name count)))))
        ⊎ (concat counts.new.nodes ≡ put (by_key string_cmp)
        (concat counts.old.nodes) (pair name count))) }
{
    clones::texts();
    clones::pairs::<String, u64>();
    copies_keep::<Count, (Text, u64)>();
    let (_, events) = counts.insert_cdc(name, count)?;
    apply_all(copy, events.as_slice())
}

/// Removes a name, and returns the events, at most three.
///
/// They are those of the removal, with clones of its names, numbered without a gap.
pub fn forget(counts: &mut Counts, name: &String) -> Result<Vec<ChangeEvent<Count>>, Refusal>
    // Result.
    ensures numbered { IfOk result (λ events. IsNumberedFrom counts.old.next events.items) }
    ensures at_most_three_events { IfOk result (λ events. length events.items ≤ 3) }
    ensures events { IfOk result (λ events. AllZip
        (IsEventClone (λ p q. (string_bytes q.key ≡ string_bytes p.key) × (q.value ≡ p.value)))
        (numbered_from counts.old.next (key_removal_events string_cmp counts.old.size
        counts.old.nodes name.now)) events.items) }

    // Contents.
    ensures contents { OnOk result (concat counts.new.nodes
        ≡ without_key string_cmp (concat counts.old.nodes) name.now) }
    ensures gone { OnOk result (has_key string_cmp (concat counts.new.nodes) name.now ≡ false) }
    ensures next { IfOk result (λ events. counts.new.next ≡ counts.old.next + length events.items) }

    // Failure.
    ensures unchanged { OnErr result (counts.new ≡ counts.old) }
    ensures cause { IfErr result (λ refusal. refusal ≡ refusal_for counts.old.next
        (length (key_removal_events string_cmp counts.old.size counts.old.nodes name.now))) }
{
    numbered_by_place::<Count>();
    let (_, events) = counts.remove_cdc(name)?;
    Ok(events)
}

/// Applies an event to a replica.
///
/// The nodes are then those after the event, with a clone of an item that it inserts, and the
/// replica expects the next event.
pub fn follow(copy: &mut Replica<Count>, event: &ChangeEvent<Count>) -> Result<(), Refusal>
    // Contents.
    ensures next { OnOk result (copy.new.next ≡ copy.old.next + 1) }

    // Failure.
    ensures fits { OnOk result (apply_refusal (by_key string_cmp) copy.old.nodes copy.old.next
        event.now ≡ None) }
    ensures unchanged { OnErr result (copy.new ≡ copy.old) }
    ensures cause { IfErr result (λ refusal. refusal ≡ unwrap_or (apply_refusal (by_key string_cmp)
        copy.old.nodes copy.old.next event.now) Refusal.Memory) }

    // Nodes.
    ensures nodes { OnOk result (IsClonedStep (by_key string_cmp)
        (λ p q. (string_bytes q.key ≡ string_bytes p.key) × (q.value ≡ p.value)) copy.old.nodes
        (unassigned event.now) copy.new.nodes) }
{
    copy.apply(event)
}
