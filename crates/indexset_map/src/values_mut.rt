//! An iterator with mutable references to the values of a map, without their keys.
ghost use Rattle.std.specs.Prelude.{◌≡◌, ◌-◌, ◌<◌, ◌≤◌, Some, length, nat_lt};
ghost use Rattle.std.specs.Prelude.{slice_get, sum, take, MatchOption};
ghost use Rattle.std.specs.Borrow.{sem};
ghost use Rattle.std.specs.Option.{option_map};

use super::BTreeMap;

/// A double-ended iterator over mutable references to the values of a map.
///
/// ```
/// let mut map = BTreeMap::from_iter(alloc, [(1, 1u8), (2, 2)])?;
/// let mut values = map.values_mut();
/// while values.has_next() {
///     let value = values.next_value();
///     *value = value.saturating_add(10);
/// }
/// assert!(rt; map.values().copied().eq([11, 12]));
/// ```
#[derive(Drop)]
pub struct ValuesMut<'a, K: Ord, V> {
    map: &'a mut BTreeMap<K, V>,
    front: usize,
    back: usize,
    // The node of the value that was returned last, and how many values precede that node.
    node: usize,
    start: usize,
    ghost within: { back ≤ length map.now.pairs },
    ghost start_is: { start ≡ sum (take node map.now.lengths) },
}

impl<K: Ord, V> BTreeMap<K, V> {
    ghost use Rattle.indexset_map.specs.Walk.{walk_back, walk_front, walk_map};
    ghost use Rattle.indexset_map.specs.ValuesWalk.{values_walk};

    /// Returns an iterator over mutable references to the values, in the order of their keys.
    ///
    /// ```
    /// let mut map = BTreeMap::from_iter(alloc, [(1, 10), (2, 20)])?;
    /// let mut values = map.values_mut();
    /// while let Some(value) = values.next() {
    ///     *value += 1;
    /// }
    /// assert!(rt; map.values().copied().eq([11, 21]));
    /// ```
    pub fn values_mut(&mut self) -> ValuesMut<'_, K, V>
        ensures same_map { (walk_map (values_walk result)).ghost_name ≡ self.entry.ghost_name }
        ensures unchanged { (walk_map (values_walk result)).now ≡ self.old }
        ensures front { walk_front (values_walk result) ≡ 0 }
        ensures back { walk_back (values_walk result) ≡ length self.old.pairs }
    {
        let back = self.len();
        ValuesMut {
            map: self,
            front: 0,
            back,
            node: 0,
            start: 0,
        }
    }
}

impl<'a, K: Ord, V> ValuesMut<'a, K, V> {
    ghost use Rattle.indexset_map.specs.Walk.{walk_back, walk_front, walk_map, walk_rest};
    ghost use Rattle.indexset_map.specs.ValuesWalk.{lends_next_value, lends_next_value_back};
    ghost use Rattle.indexset_map.specs.ValuesWalk.{lends_next_value_back_if};
    ghost use Rattle.indexset_map.specs.ValuesWalk.{lends_next_value_if, values_walk};

    /// Returns the number of remaining values.
    ///
    /// ```
    /// let mut map = BTreeMap::from_iter(alloc, [(1, 10), (2, 20)])?;
    /// assert_eq!(rt; map.values_mut().len(), 2);
    /// ```
    pub fn len(&self) -> usize
        ensures value { result ≡ length (walk_rest (values_walk self.now)) }
        ensures places { result ≡ walk_back (values_walk self.now)
            - walk_front (values_walk self.now) }
    {
        self.back.saturating_sub(self.front)
    }

    /// Returns true if a value remains.
    ///
    /// ```
    /// let mut map = BTreeMap::from_iter(alloc, [(1, 10), (2, 20)])?;
    /// assert!(rt; map.values_mut().has_next());
    /// ```
    pub fn has_next(&self) -> bool
        ensures { result ≡ nat_lt (walk_front (values_walk self.now))
            (walk_back (values_walk self.now)) }
    {
        self.front < self.back
    }

    /// Returns a mutable reference to the next value, or `None` if none remains.
    ///
    /// ```
    /// let mut map = BTreeMap::from_iter(alloc, [(1, 10), (2, 20)])?;
    /// if let Some(value) = map.values_mut().next() {
    ///     *value = 11;
    /// }
    /// assert_eq!(rt; map.get(&1), Some(&11));
    /// ```
    pub fn next(&mut self) -> Option<&mut V>
        ensures* writes_back { sem 𝓛 (lends_next_value_if K.row V.row self.entry result) }
        ensures value { let s = values_walk self.old in MatchOption result
            (walk_back s ≤ walk_front s) (λ r. (walk_front s < walk_back s)
            × (option_map (λ p. p.value) (slice_get (walk_map s).now.pairs (walk_front s))
            ≡ Some r.now)) }
    {
        if self.front < self.back {
            Some(self.next_value())
        } else {
            None
        }
    }

    /// Returns a mutable reference to the last remaining value, if any.
    ///
    /// ```
    /// let mut map = BTreeMap::from_iter(alloc, [(1, 10), (2, 20)])?;
    /// if let Some(value) = map.values_mut().next_back() {
    ///     *value = 21;
    /// }
    /// assert_eq!(rt; map.get(&2), Some(&21));
    /// ```
    pub fn next_back(&mut self) -> Option<&mut V>
        ensures* writes_back { sem 𝓛 (lends_next_value_back_if K.row V.row self.entry result) }
        ensures value { let s = values_walk self.old in MatchOption result
            (walk_back s ≤ walk_front s) (λ r. (walk_front s < walk_back s)
            × (option_map (λ p. p.value) (slice_get (walk_map s).now.pairs (walk_back s - 1))
            ≡ Some r.now)) }
    {
        if self.front < self.back {
            Some(self.next_value_back())
        } else {
            None
        }
    }

    /// Returns a mutable reference to the next value.
    ///
    /// A value must remain.
    ///
    /// ```
    /// let mut map = BTreeMap::from_iter(alloc, [(1, 10), (2, 20)])?;
    /// let mut values = map.values_mut();
    /// if values.has_next() {
    ///     *values.next_value() = 11;
    /// }
    /// assert_eq!(rt; map.get(&1), Some(&11));
    /// ```
    pub fn next_value(&mut self) -> &mut V
        requires { let s = values_walk self.old in walk_front s < walk_back s }
        ensures* writes_back { sem 𝓛 (lends_next_value K.row V.row self.entry result) }
        ensures value { let s = values_walk self.old in option_map (λ p. p.value)
            (slice_get (walk_map s).now.pairs (walk_front s)) ≡ Some result.now }
    {
        let i = self.front;
        let spot = self.map.spot_near(self.node, self.start, i);
        self.front = i + 1;
        self.node = spot.node;
        self.start = i - spot.offset;
        self.map.value_in(spot)
    }

    /// Returns a mutable reference to the last remaining value.
    ///
    /// A value must remain.
    ///
    /// ```
    /// let mut map = BTreeMap::from_iter(alloc, [(1, 10), (2, 20)])?;
    /// let mut values = map.values_mut();
    /// if values.has_next() {
    ///     *values.next_value_back() = 21;
    /// }
    /// assert_eq!(rt; map.get(&2), Some(&21));
    /// ```
    pub fn next_value_back(&mut self) -> &mut V
        requires { let s = values_walk self.old in walk_front s < walk_back s }
        ensures* writes_back { sem 𝓛 (lends_next_value_back K.row V.row self.entry result) }
        ensures value { let s = values_walk self.old in option_map (λ p. p.value)
            (slice_get (walk_map s).now.pairs (walk_back s - 1)) ≡ Some result.now }
    {
        let i = self.back - 1;
        let spot = self.map.spot_near(self.node, self.start, i);
        self.back = i;
        self.node = spot.node;
        self.start = i - spot.offset;
        self.map.value_in(spot)
    }
}
