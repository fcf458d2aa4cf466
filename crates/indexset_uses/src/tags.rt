//! An index from tags to the names of documents: a logged multimap.
ghost use Rattle.std.specs.Prelude.{◌≡◌, ◌+◌, ℕ, List, nat_eq, false, length};
ghost use Rattle.std.specs.Prelude.{true, is_some, Some, IfErr, IfOk, OnOk, OnErr};
ghost use Rattle.std.specs.Ordering.{is_eq, nat_cmp};
ghost use Rattle.std.specs.Cmp.Lexicographic.{pointwise, slice_cmp};
ghost use Rattle.indexset.specs.Words.{by_number, entries, equal_pair, inserted_pair};
ghost use Rattle.indexset.specs.Words.{insertion_refusal, concat, pair_removal_events, pairs_of};
ghost use Rattle.indexset.specs.Words.{put, refusal_for, replay, without_first, IsNumberedFrom};

use indexset::base::Text;
use indexset::base::multipair::MultiPair;
use indexset::base::refusal::{Refusal, Refused};
use indexset::cdc::change::ChangeEvent;
use indexset::cdc::laws;
use indexset::concurrent::multimap::{BTreeMultiMap, Range};

/// A document under a tag.
pub type Tagged = MultiPair<Text, Text>;

/// The names of documents by tag.
pub type Tags = BTreeMultiMap<Text, Text>;

/// Inserts a document under a tag if it is absent, and returns the events.
///
/// The tag then has it, and other tags are unchanged.
pub fn add(
    tags: &mut Tags,
    tag: Text,
    document: Text,
) -> Result<Vec<ChangeEvent<Tagged>>, Refused<(Text, Text)>>
    // Result.
    ensures numbered { IfOk result (λ events. IsNumberedFrom tags.old.next events.items) }

    // Contents.
    ensures contains { OnOk result (is_some (equal_pair (slice_cmp nat_cmp) (pointwise nat_eq)
        (concat tags.new.nodes) tag document) ≡ true) }
    ensures contents { OnOk result (concat tags.new.nodes
        ≡ put (by_number (slice_cmp nat_cmp)) (concat tags.old.nodes)
        (inserted_pair (slice_cmp nat_cmp) (pointwise nat_eq) tags.old tag document)) }
    ensures others { OnOk result ((other : List ℕ) → is_eq (slice_cmp nat_cmp other tag) ≡ false
        → pairs_of (slice_cmp nat_cmp) (concat tags.new.nodes) other
        ≡ pairs_of (slice_cmp nat_cmp) (concat tags.old.nodes) other) }
    ensures next { IfOk result (λ events. tags.new.next ≡ tags.old.next + length events.items) }

    // Failure.
    ensures unchanged { OnErr result (tags.new ≡ tags.old) }
    ensures given_back { IfErr result (λ refused. refused.value ≡ (tag, document)) }
    ensures cause { IfErr result (λ refused. refused.cause
        ≡ insertion_refusal (slice_cmp nat_cmp) (pointwise nat_eq) tags.old tag document) }

    // Nodes.
    ensures replay { IfOk result (λ events. replay (by_number (slice_cmp nat_cmp)) tags.old.nodes
        events.items ≡ Some tags.new.nodes) }
{
    laws::numbered_by_place::<Tagged>();
    let (_, events) = tags.insert_cdc(tag, document)?;
    Ok(events)
}

/// Removes the first document of a tag that has this name, if any, and returns the events.
///
/// The other documents of the tag and all other tags are unchanged.
pub fn remove(
    tags: &mut Tags,
    tag: &str,
    document: &Text,
) -> Result<Vec<ChangeEvent<Tagged>>, Refusal>
    // Result.
    ensures numbered { IfOk result (λ events. IsNumberedFrom tags.old.next events.items) }

    // Contents.
    ensures gone { OnOk result (pairs_of (slice_cmp nat_cmp) (concat tags.new.nodes) tag.now
        ≡ without_first (λ pair. pointwise nat_eq pair.value document.now)
        (pairs_of (slice_cmp nat_cmp) (concat tags.old.nodes) tag.now)) }
    ensures others { OnOk result ((other : List ℕ) → is_eq (slice_cmp nat_cmp other tag.now) ≡ false
        → pairs_of (slice_cmp nat_cmp) (concat tags.new.nodes) other
        ≡ pairs_of (slice_cmp nat_cmp) (concat tags.old.nodes) other) }
    ensures next { IfOk result (λ events. tags.new.next ≡ tags.old.next + length events.items) }

    // Failure.
    ensures unchanged { OnErr result (tags.new ≡ tags.old) }
    ensures cause { IfErr result (λ refusal. refusal ≡ refusal_for tags.old.next (length
        (pair_removal_events (slice_cmp nat_cmp) tags.old.size tags.old.nodes
        (equal_pair (slice_cmp nat_cmp) (pointwise nat_eq) (concat tags.old.nodes) tag.now
        document.now)))) }

    // Nodes.
    ensures replay { IfOk result (λ events. replay (by_number (slice_cmp nat_cmp)) tags.old.nodes
        events.items ≡ Some tags.new.nodes) }
{
    laws::numbered_by_place::<Tagged>();
    let (_, events) = tags.remove_cdc(tag, document)?;
    Ok(events)
}

/// Returns the documents of a tag, in the order of their numbers.
pub fn documents<'a>(tags: &'a Tags, tag: &str) -> Range<'a, Text, Text>
    ensures { result ≡ entries (pairs_of (slice_cmp nat_cmp) (concat tags.now.nodes) tag.now) }
{
    tags.get(tag)
}
