//! Idioms of std's `BTreeMap`.
ghost use Rattle.std.specs.Prelude.{◌≡◌, if◌then◌else◌, ◌==◌, ◌&&◌, ◌+◌, ◌-◌, ◌^◌, []};
ghost use Rattle.std.specs.Prelude.{◌∷◌, not, nat_lt, IsTrue, Some, drop, length, min};
ghost use Rattle.std.specs.Prelude.{slice_get, take, unwrap_or, MatchOption, OnOk, IfOk};
ghost use Rattle.std.specs.Cmp.Lexicographic.{pointwise, slice_cmp};
ghost use Rattle.std.specs.List.{All, filter, list_any};
ghost use Rattle.std.specs.Option.{option_map};
ghost use Rattle.std.specs.Ordering.{nat_cmp};
ghost use Rattle.std.specs.declared.ops.Bound.TheVariants.{Included, Excluded, Unbounded};
ghost use Rattle.indexset.specs.Words.{are_ordered, has_key, pair_keys, pair_values};
ghost use Rattle.indexset.specs.Words.{pairs_within, put_value, set_value, value_of, without_key};

use indexset::base::Text;
use indexset::base::refusal::{Refusal, Refused};
use indexset::{BTreeMap, Entry};
use std::alloc::{AllocError, Global};
use std::ops::{Bound, RangeBounds};

/// `BTreeMap::from([(1, 2), (3, 4)])`: takes the allocator, and returns a `Result`.
pub fn two(alloc: Global) -> Result<BTreeMap<u64, u64>, Refusal> {
    BTreeMap::from(alloc, [(1, 2), (3, 4)])
}

/// `*counts.entry(word).or_insert(0) += 1`: an insertion can fail, and the sum saturates.
pub fn count(counts: &mut BTreeMap<u64, u64>, word: u64) -> Result<(), Refused<(u64, u64)>>
    ensures { OnOk result (value_of nat_cmp counts.new.pairs word
        ≡ Some (min (unwrap_or (value_of nat_cmp counts.old.pairs word) 0 + 1) (2 ^ 64 - 1))) }
{
    let count = counts.entry(word).or_insert(0)?;
    *count = count.saturating_add(1);
    Ok(())
}

/// `map.entry(k).or_default()`.
pub fn at_least_zero(map: &mut BTreeMap<u64, u64>, key: u64) -> Result<(), Refused<(u64, u64)>>
    ensures { OnOk result (map.new.pairs ≡ put_value nat_cmp map.old.pairs key
        (unwrap_or (value_of nat_cmp map.old.pairs key) 0)) }
{
    map.entry(key).or_default()?;
    Ok(())
}

/// `match map.entry(k) { Entry::Occupied(e) => .., Entry::Vacant(e) => .. }`.
pub fn claim(
    map: &mut BTreeMap<u64, u64>,
    key: u64,
    owner: u64,
) -> Result<bool, Refused<(u64, u64)>>
    ensures free { IfOk result (λ free. free ≡ not (has_key nat_cmp map.old.pairs key)) }
    ensures owned { OnOk result (map.new.pairs ≡ (if has_key nat_cmp map.old.pairs key
        then map.old.pairs else put_value nat_cmp map.old.pairs key owner)) }
{
    match map.entry(key) {
        Entry::Occupied(_) => Ok(false),
        Entry::Vacant(entry) => {
            entry.insert(owner)?;
            Ok(true)
        }
    }
}

/// `groups.entry(k).or_insert_with(Vec::new).push(v)`.
pub fn group(
    alloc: Global,
    groups: &mut BTreeMap<u64, Vec<u64>>,
    key: u64,
    value: u64,
) -> anyhow::Result<()> {
    groups
        .entry(key)
        .or_insert_with(|| Vec::new(alloc))?
        .push(value)?;
    Ok(())
}

/// `map.get(&k).copied().unwrap_or(0)`.
pub fn or_zero(map: &BTreeMap<u64, u64>, key: u64) -> u64
    ensures { result ≡ unwrap_or (value_of nat_cmp map.now.pairs key) 0 }
{
    map.get(&key).copied().unwrap_or(0)
}

/// `map[&k]`.
pub fn known(map: &BTreeMap<u64, u64>, key: u64) -> u64
    requires { IsTrue (has_key nat_cmp map.now.pairs key) }
    ensures { value_of nat_cmp map.now.pairs key ≡ Some result }
{
    map[&key]
}

/// `map.get("pears")`, where keys are owned texts.
pub fn price(prices: &BTreeMap<Text, u64>, name: &str) -> Option<u64>
    ensures { result ≡ value_of (slice_cmp nat_cmp) prices.now.pairs name.now }
{
    prices.get(name).copied()
}

/// `map.remove("pears")`.
pub fn drop_price(prices: &mut BTreeMap<Text, u64>, name: &str) -> Option<u64>
    ensures value { result ≡ value_of (slice_cmp nat_cmp) prices.old.pairs name.now }
    ensures rest { prices.new.pairs ≡ without_key (slice_cmp nat_cmp) prices.old.pairs name.now }
{
    prices.remove(name)
}

/// `map.range("e".."g")`.
pub fn from_e_to_g(prices: &BTreeMap<Text, u64>) -> usize
    ensures { result ≡ length (pairs_within (slice_cmp nat_cmp) prices.now.pairs
        (Included (101 ∷ [])) (Excluded (103 ∷ []))) }
{
    prices.range("e".."g").len()
}

/// `if let Some(v) = map.get_mut(&k) { *v += n }`.
pub fn raise(map: &mut BTreeMap<u64, u64>, key: u64, more: u64)
    ensures { MatchOption (value_of nat_cmp map.old.pairs key) (map.new.pairs ≡ map.old.pairs)
        (λ value. map.new.pairs ≡ set_value nat_cmp map.old.pairs key
        (min (value + more) (2 ^ 64 - 1))) }
{
    if let Some(value) = map.get_mut(&key) {
        *value = value.saturating_add(more);
    }
}

/// `map.insert(k, v)`, which returns the old value.
pub fn swap(
    map: &mut BTreeMap<u64, u64>,
    key: u64,
    value: u64,
) -> Result<Option<u64>, Refused<(u64, u64)>>
    ensures before { IfOk result (λ old. old ≡ value_of nat_cmp map.old.pairs key) }
    ensures after { OnOk result (map.new.pairs ≡ put_value nat_cmp map.old.pairs key value) }
{
    map.insert(key, value)
}

/// `map.remove(&k)`.
pub fn forget(map: &mut BTreeMap<u64, u64>, key: u64) -> Option<u64>
    ensures value { result ≡ value_of nat_cmp map.old.pairs key }
    ensures rest { map.new.pairs ≡ without_key nat_cmp map.old.pairs key }
{
    map.remove(&key)
}

/// `for (k, v) in &map { .. }`.
pub fn has_value(map: &BTreeMap<u64, u64>, sought: u64) -> bool
    ensures { result ≡ list_any (λ pair. pair.value == sought) map.now.pairs }
{
    for (_, value) in map {
        if *value == sought {
            return true;
        }
    }
    false
}

// `for (k, v) in &mut map`, `for v in map.values_mut()` and `for (k, v) in map.range_mut(..)` are
// not supported, nor is `for_each` of these iterators: such an iterator lends from itself, and
// takes back what it lends before the next (docs/design.md has the smallest case). Write `let mut
// values = map.values_mut(); while let Some(value) = values.next() { .. }`; `raise` in `prices.rt`
// has the proof of what such a loop writes.

/// `map.values().copied().max()`.
pub fn greatest(map: &BTreeMap<u64, u64>) -> Option<u64> {
    map.values().copied().max()
}

/// `map.keys().copied().collect()`.
pub fn keys_of(alloc: Global, map: &BTreeMap<u64, u64>) -> Result<Vec<u64>, AllocError>
    ensures { IfOk result (λ keys. keys.items ≡ pair_keys map.now.pairs) }
{
    map.keys().copied().collect(alloc)
}

/// `map.range(..=k).next_back()`: the pair of the greatest key that is at most `k`.
pub fn floor(map: &BTreeMap<u64, u64>, key: u64) -> Option<u64>
    ensures { let pairs = pairs_within nat_cmp map.now.pairs Unbounded (Included key) in
        result ≡ option_map (λ pair. pair.key) (slice_get pairs (length pairs - 1)) }
{
    let (found, _) = map.range(..=key).next_back()?;
    Some(*found)
}

/// `map.range((Excluded(k), Unbounded)).next()`: the first key that is greater than `k`.
pub fn next_key(map: &BTreeMap<u64, u64>, key: u64) -> Option<u64>
    ensures { result ≡ option_map (λ pair. pair.key)
        (slice_get (pairs_within nat_cmp map.now.pairs (Excluded key) Unbounded) 0) }
{
    let (found, _) = map.range((Bound::Excluded(&key), Bound::Unbounded)).next()?;
    Some(*found)
}

/// `map.range(range)` at any `R: RangeBounds<K>`: here it takes the two bounds.
pub fn count_within<K: Ord, V, R: RangeBounds<K>>(map: &BTreeMap<K, V>, range: R) -> usize
    requires bounds { R.has_bounds range }
    requires ordered { IsTrue (are_ordered K.cmp (R.start_bound range) (R.end_bound range)) }
    ensures { result ≡ length (pairs_within K.cmp map.now.pairs (R.start_bound range)
        (R.end_bound range)) }
{
    map.range((range.start_bound(), range.end_bound())).len()
}

/// `map.iter().rev().take(n)`: the last n pairs, in descending order.
pub fn last_values(
    alloc: Global,
    map: &BTreeMap<u64, u64>,
    count: usize,
) -> Result<Vec<u64>, AllocError> {
    map.iter()
        .rev()
        .take(count)
        .map(|(_, value)| *value)
        .collect(alloc)
}

/// `while let Some((k, v)) = map.pop_first()`.
pub fn drain(map: &mut BTreeMap<u64, u64>) -> u64
    ensures { map.new.pairs ≡ [] }
{
    let mut total = 0u64;
    while let Some((_, value)) = map.pop_first() {
        total = total.saturating_add(value);
    }
    total
}

/// `map.retain(|_, v| ..)`.
pub fn drop_zeros(map: &mut BTreeMap<u64, u64>)
    ensures { map.new.pairs ≡ filter (λ pair. nat_lt 0 pair.value) map.old.pairs }
{
    map.retain(|_, value| *value > 0);
}

/// `map.extract_if(..k, |_, v| ..).collect()`.
pub fn take_zeros(
    alloc: Global,
    map: &mut BTreeMap<u64, u64>,
    end: u64,
) -> Result<Vec<(u64, u64)>, AllocError> {
    map.extract_if(..end, |_, value| *value == 0).collect(alloc)
}

/// `map.split_off(&k)`.
pub fn take_from(map: &mut BTreeMap<u64, u64>, key: u64) -> Result<BTreeMap<u64, u64>, Refusal>
    ensures left { OnOk result (map.new.pairs
        ≡ pairs_within nat_cmp map.old.pairs Unbounded (Excluded key)) }
    ensures taken { IfOk result (λ taken. taken.pairs
        ≡ pairs_within nat_cmp map.old.pairs (Included key) Unbounded) }
{
    map.split_off(&key)
}

/// `a.append(&mut b)`.
pub fn join(map: &mut BTreeMap<u64, u64>, other: &mut BTreeMap<u64, u64>) -> Result<(), Refusal>
    ensures { OnOk result (other.new.pairs ≡ []) }
{
    map.append(other)
}

/// `map.first_entry()`.
pub fn lower_first(map: &mut BTreeMap<u64, u64>)
    ensures keys { pair_keys map.new.pairs ≡ pair_keys map.old.pairs }
    ensures rest { drop 1 map.new.pairs ≡ drop 1 map.old.pairs }
    ensures first { All (λ value. value ≡ 0) (take 1 (pair_values map.new.pairs)) }
{
    if let Some(mut entry) = map.first_entry() {
        *entry.get_mut() = 0;
    }
}

/// `a == b`.
pub fn is_same(a: &BTreeMap<u64, u64>, b: &BTreeMap<u64, u64>) -> bool
    ensures { result ≡ pointwise (λ p q. (p.key == q.key) && (p.value == q.value))
        a.now.pairs b.now.pairs }
{
    a == b
}
