// Two spaces side by side: a place is one place of each, keys and bounds are added and cut at 2^64 − 1.
ghost use Rattle.space.specs.Pairs.{paired, both_at, both_spot, BothHold};
ghost use Rattle.std.proofs.Common.{rules};
ghost use Rattle.space.specs.Smallest.{least_both};

use crate::laws::{LeastBoxes, NotAdmitted, Side, Space};
use std::marker::PhantomData;

// One of each. Any two halves make one.
#[derive(Clone, Copy, PartialEq, Eq, Debug)]
pub struct Both<A, B> {
    pub first: A,
    pub second: B,
}

pub struct Pair<A: Space, B: Space> {
    first: PhantomData<A>,
    second: PhantomData<B>,
}

// `locate` and `single`, and `key` and `bound`, have one shape over other functions of the halves: one that took two functions would
// need more lines for its contract than it saves.
impl<A: Space, B: Space> Space for Pair<A, B> {
    type Coordinates = Both<A::Coordinates, B::Coordinates>;

    type Place = Both<A::Place, B::Place>;

    type Region = Both<A::Region, B::Region>;

    ghost sense = { paired A.Space.sense B.Space.sense };

    ghost Holds = { BothHold A.Space.Holds B.Space.Holds };

    ghost at = { both_at A.Space.at B.Space.at };

    ghost spot = { both_spot A.Space.spot B.Space.spot };

    ghost lawful = { Prim.search rules };

    ghost placed = { Prim.search rules };

    fn admit(
        coordinates: Both<A::Coordinates, B::Coordinates>,
    ) -> Result<Both<A::Place, B::Place>, NotAdmitted> {
        let first = A::admit(coordinates.first)?;
        let second = B::admit(coordinates.second)?;
        Ok(Both { first, second })
    }

    fn locate(place: Both<A::Place, B::Place>) -> Both<A::Coordinates, B::Coordinates> {
        Both {
            first: A::locate(place.first),
            second: B::locate(place.second),
        }
    }

    fn key(query: Both<A::Place, B::Place>, place: Both<A::Place, B::Place>) -> u64 {
        A::key(query.first, place.first).saturating_add(B::key(query.second, place.second))
    }

    fn bound(query: Both<A::Place, B::Place>, region: Both<A::Region, B::Region>) -> u64 {
        A::bound(query.first, region.first).saturating_add(B::bound(query.second, region.second))
    }

    fn single(place: Both<A::Place, B::Place>) -> Both<A::Region, B::Region> {
        Both {
            first: A::single(place.first),
            second: B::single(place.second),
        }
    }

    fn widen(
        region: Both<A::Region, B::Region>,
        place: Both<A::Place, B::Place>,
    ) -> Both<A::Region, B::Region> {
        Both {
            first: A::widen(region.first, place.first),
            second: B::widen(region.second, place.second),
        }
    }

    // Even turns are the first space's, odd ones the second's, each as its own next turn.
    fn side(place: Both<A::Place, B::Place>, pivot: Both<A::Place, B::Place>, turn: u32) -> Side {
        if turn % 2 == 0 {
            A::side(place.first, pivot.first, turn / 2)
        } else {
            B::side(place.second, pivot.second, turn / 2)
        }
    }
}

impl<A: LeastBoxes, B: LeastBoxes> LeastBoxes for Pair<A, B> {
    ghost least = { least_both A.Space.sense B.Space.sense A.Space.Holds B.Space.Holds
        A.LeastBoxes.least B.LeastBoxes.least };
}
