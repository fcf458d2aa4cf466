//! Texts by name, and a replica of them: a logged map from texts to texts.
ghost use Rattle.std.specs.Prelude.{◌≡◌, ◌⊎◌, false, length, Some, IfErr, OnOk};
ghost use Rattle.std.specs.Option.{option_copied};
ghost use Rattle.std.specs.Ordering.{nat_cmp};
ghost use Rattle.std.specs.Cmp.Lexicographic.{slice_cmp};
ghost use Rattle.indexset.specs.Words.{by_key, has_key, concat, key_removal_events, pair};
ghost use Rattle.indexset.specs.Words.{put, put_events, refusal_for, value_of, without_key};

use crate::copies::apply_all;
use indexset::base::Text;
use indexset::base::pair::Pair;
use indexset::base::refusal::Refusal;
use indexset::concurrent::map::BTreeMap;
use indexset::replica::Replica;

/// The text of a name.
pub type Named = Pair<Text, Text>;

/// Texts by name.
pub type UniqueKey = BTreeMap<Text, Text>;

/// Sets the text of a name, in a map and in a replica that has the same nodes.
///
/// Both then have the same nodes, and the replica has the text.
///
/// # Errors
///
/// Nothing is changed, or the map has the text and the replica is behind.
pub fn set_text(
    names: &mut UniqueKey,
    copy: &mut Replica<Named>,
    name: Text,
    text: Text,
) -> Result<(), Refusal>
    requires { copy.old.nodes ≡ names.old.nodes }
    ensures unchanged { OnOk result (copy.new.nodes ≡ names.new.nodes) }
    ensures held { OnOk result (value_of (slice_cmp nat_cmp) (concat copy.new.nodes) name
        ≡ Some text) }
    ensures contents { OnOk result (concat names.new.nodes
        ≡ put (by_key (slice_cmp nat_cmp)) (concat names.old.nodes) (pair name text)) }
    ensures refused { IfErr result (λ refusal. ((names.new ≡ names.old) × (copy.new ≡ copy.old)
        × (refusal ≡ refusal_for names.old.next (length (put_events (by_key (slice_cmp nat_cmp))
        names.old.size names.old.nodes (pair name text)))))
        ⊎ (concat names.new.nodes ≡ put (by_key (slice_cmp nat_cmp))
        (concat names.old.nodes) (pair name text))) }
{
    let (_, events) = names.insert_cdc(name, text)?;
    apply_all(copy, events.as_slice())
}

/// Removes a name from a map and from a replica that has the same nodes.
///
/// Both then have the same nodes, and the replica does not have the name.
///
/// # Errors
///
/// Nothing is changed, or the name is absent from the map and the replica is behind.
pub fn forget(names: &mut UniqueKey, copy: &mut Replica<Named>, name: &str) -> Result<(), Refusal>
    requires { copy.old.nodes ≡ names.old.nodes }
    ensures unchanged { OnOk result (copy.new.nodes ≡ names.new.nodes) }
    ensures gone { OnOk result (has_key (slice_cmp nat_cmp) (concat copy.new.nodes) name.now
        ≡ false) }
    ensures contents { OnOk result (concat names.new.nodes
        ≡ without_key (slice_cmp nat_cmp) (concat names.old.nodes) name.now) }
    ensures refused { IfErr result (λ refusal. ((names.new ≡ names.old) × (copy.new ≡ copy.old)
        × (refusal ≡ refusal_for names.old.next (length (key_removal_events (slice_cmp nat_cmp)
        names.old.size names.old.nodes name.now))))
        ⊎ (concat names.new.nodes ≡ without_key (slice_cmp nat_cmp)
        (concat names.old.nodes) name.now)) }
{
    let (_, events) = names.remove_cdc(name)?;
    apply_all(copy, events.as_slice())
}

/// Returns the text of a name, without making a key of the name.
pub fn text_of<'a>(names: &'a UniqueKey, name: &str) -> Option<&'a Text>
    ensures { option_copied result ≡ value_of (slice_cmp nat_cmp) (concat names.now.nodes)
        name.now }
{
    Some(&names.get(name)?.value)
}

/// Returns the text that a replica has for a name, without making a key of the name.
pub fn copied_text_of<'a>(copy: &'a Replica<Named>, name: &str) -> Option<&'a Text>
    ensures { option_copied result ≡ value_of (slice_cmp nat_cmp) (concat copy.now.nodes) name.now }
{
    Some(&copy.get(name)?.value)
}
