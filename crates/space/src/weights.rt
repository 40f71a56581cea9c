// A space with keys and bounds multiplied by a weight, cut at 2^64 − 1; the rest is as in the space below.
ghost use Rattle.std.specs.Prelude.{◌≡◌, ℕ, ◌*◌, ◌<◌};
ghost use Rattle.space.specs.Weights.{cut, weighted};
ghost use Rattle.std.proofs.Common.{mul-le-mul_left, arith, rules};

use crate::laws::{LeastBoxes, NotAdmitted, Side, Space};
use std::marker::PhantomData;

// A weight from 1 to 65,535. It belongs to the type, so that two kinds of record can never be weighed differently by mistake.
// A const parameter in its place (`Times<const W: u16>`) would take 0 too, at which `positive` is false.
pub trait Weight {
    const AMOUNT: u16;

    ghost AMOUNT: { ℕ };

    // cut at 2^64 − 1
    fn times(number: u64) -> u64
        ensures { result ≡ cut (AMOUNT * number) }
    {
        u64::from(Self::AMOUNT).saturating_mul(number)
    }

    ghost positive: { 0 < AMOUNT };

    ghost small: { AMOUNT < 65536 };
}

pub struct Weighted<S: Space, W: Weight> {
    space: PhantomData<S>,
    weight: PhantomData<W>,
}

impl<S: Space, W: Weight> Space for Weighted<S, W> {
    type Coordinates = S::Coordinates;

    type Place = S::Place;

    type Region = S::Region;

    ghost sense = { weighted W.Weight.AMOUNT S.Space.sense };

    ghost Holds = { S.Space.Holds };

    ghost at = { S.Space.at };

    ghost spot = { S.Space.spot };

    ghost lawful = { let below = S.Space.lawful in
        record {
          single_holds = below.single_holds;
          widened_holds = below.widened_holds;
          widened_keeps = below.widened_keeps;
          bound_below = λ q b p h. let m = mul-le-mul_left W.Weight.AMOUNT (below.bound_below q b p h) in omega arith;
          key_fits = λ q p. omega arith;
        } };

    ghost placed = { Prim.search rules };

    fn admit(coordinates: S::Coordinates) -> Result<S::Place, NotAdmitted> {
        S::admit(coordinates)
    }

    fn locate(place: S::Place) -> S::Coordinates {
        S::locate(place)
    }

    fn key(query: S::Place, place: S::Place) -> u64 {
        W::times(S::key(query, place))
    }

    fn bound(query: S::Place, region: S::Region) -> u64 {
        W::times(S::bound(query, region))
    }

    fn single(place: S::Place) -> S::Region {
        S::single(place)
    }

    fn widen(region: S::Region, place: S::Place) -> S::Region {
        S::widen(region, place)
    }

    fn side(place: S::Place, pivot: S::Place, turn: u32) -> Side {
        S::side(place, pivot, turn)
    }
}

impl<S: LeastBoxes, W: Weight> LeastBoxes for Weighted<S, W> {
    ghost least = { Prim.search rules };
}
