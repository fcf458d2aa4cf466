//! Order-statistic B-tree sets and maps, with look-ups by key and by position, and a logged family
//! that returns its changes as numbered events.
//!
//! This crate re-exports the collections under the paths of the Rust crate. [`BTreeSet`] and
//! [`BTreeMap`] with their iterators are at the root. The logged set, map and multimap are in
//! [`concurrent`], their events in [`cdc`], the parts of both families in [`base`], and the
//! replica, which follows a tree by its events, in [`replica`].
//! Laws of sets are in [`laws`], laws of iterators over maps in [`map_laws`].
//!
//! `Rattle.indexset.specs.Words` has the words of the contracts, and `docs/guide.md` is the page
//! for callers.
#![tactic(auto)]

/// The parts of the collections: nodes, searches, comparators, keys, bounds, pairs and errors.
pub mod base {
    pub use indexset_core::text::Text;
    pub use indexset_core::{
        array_node, by_bytes, constants, key_range, laws, lookup_key, multipair, node, pair,
        position_range, probe, refusal, search, steps,
    };
}

/// Collections that return their changes as events.
///
/// The module has the Rust crate's name. The collections are not concurrent: each has one owner.
pub mod concurrent {
    /// The logged set, its iterators, and its nodes.
    pub mod set {
        pub use indexset_log::set::iter::Iter;
        pub use indexset_log::set::nodes::Nodes;
        pub use indexset_log::set::range::Range;
        pub use indexset_log::set::{BTreeSet, laws};
    }

    /// The logged map and its iterators.
    pub mod map {
        pub use indexset_log::map::iter::Iter;
        pub use indexset_log::map::range::Range;
        pub use indexset_log::map::{BTreeMap, laws};
    }

    /// The multimap and its iterators.
    pub mod multimap {
        pub use indexset_multi::laws;
        pub use indexset_multi::multimap::BTreeMultiMap;
        pub use indexset_multi::multimap::iter::Iter;
        pub use indexset_multi::multimap::range::{Range, RawRange};
    }
}

/// The events of a tree's changes, laws on lists of them, and their texts.
pub mod cdc {
    pub use indexset_events::{change, laws};

    /// The texts of items and of events, which go as lines.
    pub mod text {
        pub use indexset_wire::{event, item, laws};
    }
}

/// A replica, which follows a tree by its events.
pub mod replica {
    pub use indexset_replica::{Delivery, Replica, iter, laws};
}

pub use indexset_core::key_range::KeyRange;
pub use indexset_core::position_range::PositionRange;
pub use indexset_map::{
    BTreeMap, CursorMap, Entry, ExtractIfMap, IntoIterMap, IntoKeys, IntoValues, IterMap, IterMut,
    Keys, OccupiedEntry, RangeMap, RangeMut, VacantEntry, Values, ValuesMut, laws as map_laws,
};
pub use indexset_set::{
    BTreeSet, Cursor, Difference, ExtractIf, Intersection, IntoIter, Iter, Range,
    SymmetricDifference, Union, laws,
};
