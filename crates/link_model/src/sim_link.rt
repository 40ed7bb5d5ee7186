ghost use Rattle.std.specs.Prelude.{◌≡◌, ◌<◌, ◌≤◌, ℕ, length, slice_get, Some, false};
ghost use Rattle.link_model.specs.declared.place.Place.{Place as PlaceOf};
ghost use Rattle.link_model.specs.Places.{IsFirst, passed_at, posted_at, posted_in, shown_by};

use crate::place::Place;
use std::alloc::Global;

/// A link whose messages stay, so that each can be given any number of times.
#[derive(Debug, Drop)]
pub struct SimLink {
    pub(crate) places: Vec<Place>,
    pub(crate) first: usize,
    ghost least: { IsFirst places.items first },
}

impl SimLink {
    ghost use Rattle.std.specs.Prelude.{[]};
    ghost use Rattle.link_model.specs.Links.{IsPassed};
    ghost use Rattle.link_model.specs.Simulated.{places_in};

    /// A link on which nothing was posted. It takes no memory.
    pub fn new(alloc: Global) -> SimLink
        ensures { places_in result ≡ [] }
    {
        SimLink {
            places: Vec::new(alloc),
            first: 0,
        }
    }

    /// Message `k` waits no more. It takes no memory. The first place that waits moves on over all that do not,
    /// so that it passes each place once in the life of the link.
    pub(crate) fn pass(&mut self, k: u64)
        ensures passed { IsPassed k (shown_by (places_in self.old)) (shown_by (places_in self.new)) }
        ensures there { posted_at (places_in self.new) k ≡ posted_at (places_in self.old) k }
        ensures posted { posted_in (places_in self.new) ≡ posted_in (places_in self.old) }
    {
        if k > 0 && k - 1 < self.places.len() as u64 {
            self.first = pass_at(&mut self.places, self.first, (k - 1) as usize);
        }
    }
}

// The message at this index waits no more. It gives the first place that waits then.
fn pass_at(places: &mut Vec<Place>, first: usize, index: usize) -> usize
    requires first { IsFirst places.old.items first }
    requires there { index < length places.old.items }
    ensures places { places.new.items ≡ passed_at places.old.items index }
    ensures first { IsFirst places.new.items result }
{
    places[index].waits = false;
    if index == first {
        first_from(places, first)
    } else {
        first
    }
}

// The first place that waits, from one on before which none does.
fn first_from(places: &[Place], from: usize) -> usize
    requires within { from ≤ length places.now }
    requires passed { (i : ℕ) (p : PlaceOf) → i < from → slice_get places.now i ≡ Some p → p.waits ≡ false }
    ensures { IsFirst places.now result }
{
    for index in from..places.len() {
        if places[index].waits {
            return index;
        }
    }
    places.len()
}
