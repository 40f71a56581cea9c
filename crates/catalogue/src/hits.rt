// The hits of a search so far, in order.
ghost use Rattle.std.specs.Prelude.{◌≡◌, ◌≤◌, [], length, take};
ghost use Rattle.std.specs.List.{position_or_len};
ghost use Rattle.catalogue.specs.Hits.{comes_before, inserted, last, before_last, above_last};

use crate::findings::Hit;
use arrayvec::ArrayVec;
use std::marker::Model;

#[derive(Drop)]
pub struct Hits {
    hits: ArrayVec<Hit, 16>,
    ghost few: { length hits.items ≤ 16 },
}

impl Model for Hits {
    ghost use Rattle.catalogue.specs.Searches.{Listed};

    ghost Value = { Listed };

    ghost view = { λ h. record { items = h.hits.items; few = h.few } };
}

// Where a hit goes: before the first that it comes before, or else at the end.
// Not partition_point: that the hits are in order is not in their type, and inserted is defined for any list.
fn place_of(x: Hit, hits: &[Hit]) -> usize
    ensures { result ≡ position_or_len (comes_before x) hits.now }
{
    hits.iter().position(|y| x < *y).unwrap_or(hits.len())
}

impl Hits {
    pub(crate) fn none() -> Hits
        ensures { result.items ≡ [] }
    {
        Hits {
            hits: ArrayVec::new(),
        }
    }

    pub(crate) fn as_slice(&self) -> &[Hit]
        ensures hits { result.now ≡ self.now.items }
        ensures fits { length result.now ≤ 16 }
    {
        self.hits.as_slice()
    }

    // Lists a hit in order, and cuts the list to k.
    pub(crate) fn list(&mut self, x: Hit, k: usize)
        requires { k ≤ 16 }
        ensures { self.new.items ≡ take k (inserted x self.old.items) }
    {
        let place = place_of(x, &self.hits);
        if place < k {
            self.hits.truncate(k - 1);
            self.hits.insert(place, x);
        } else {
            self.hits.truncate(k);
        }
    }

    fn last(&self) -> Option<Hit>
        ensures { result ≡ last self.now.items }
    {
        self.hits.last().copied()
    }

    pub(crate) fn count(&self) -> usize
        ensures { result ≡ length self.now.items }
    {
        self.hits.len()
    }

    pub(crate) fn before_last(&self, x: Hit) -> bool
        ensures { result ≡ before_last x self.now.items }
    {
        self.last().is_some_and(|y| x < y)
    }

    // Whether this is above the last hit's key.
    pub(crate) fn above_last(&self, bound: u64) -> bool
        ensures { result ≡ above_last bound self.now.items }
    {
        self.last().is_some_and(|y| y.key < bound)
    }
}
