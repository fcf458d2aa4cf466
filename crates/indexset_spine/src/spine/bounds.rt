//! Bounds as spots, each by one search.
ghost use Rattle.std.specs.Prelude.{◌≡◌, false};
ghost use Rattle.std.specs.List.{count_by};
ghost use Rattle.indexset_core.specs.KeyRange.{IfBounded, is_before, is_up_to_end};
ghost use Rattle.indexset_core.specs.Parted.{IsParted};
ghost use Rattle.indexset_spine.specs.NodeList.{items, IsSpot, position_of};

use super::Spine;
use crate::spot::Spot;
use indexset_core::item_iter::OfVec;
use indexset_core::locate::{place_from, place_to};
use indexset_core::probe::Probe;
use std::ops::Bound;

impl<T> Spine<T> {
    /// Returns the spot after the items before the start.
    pub fn start_of<P: Probe<T> + Drop>(&self, start: Bound<P>) -> Spot
        requires { IfBounded (λ p. IsParted (P.answer p) (items self.now)) start }
        ensures spot { IsSpot self.now.nodes result }
        ensures position { position_of self.now.nodes result
            ≡ count_by (is_before (λ x p. P.answer p x) start) (items self.now) }
    {
        let place = place_from::<T, Vec<T>, OfVec, P>(self.nodes.as_slice(), start);
        spot_at(place)
    }

    /// Returns the spot after the items that are not past the end.
    pub fn end_of<P: Probe<T> + Drop>(&self, end: Bound<P>) -> Spot
        requires { IfBounded (λ p. IsParted (P.answer p) (items self.now)) end }
        ensures spot { IsSpot self.now.nodes result }
        ensures position { position_of self.now.nodes result
            ≡ count_by (is_up_to_end (λ x p. P.answer p x) end) (items self.now) }
    {
        let place = place_to::<T, Vec<T>, OfVec, P>(self.nodes.as_slice(), end);
        spot_at(place)
    }
}

// Returns the spot at a place between items.
fn spot_at(place: (usize, usize)) -> Spot
    ensures { result ≡ record { node = place.0; offset = place.1; found = false } }
{
    Spot {
        node: place.0,
        offset: place.1,
        found: false,
    }
}
