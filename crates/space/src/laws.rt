// What a space is: its meaning and its laws as ghost members, and the functions that compute it.
ghost use Rattle.std.specs.Prelude.{◌≡◌, Option};
ghost use Rattle.space.specs.Sense.{Sense, Lawful};
ghost use Rattle.space.specs.Least.{Least, WideningLeast};
ghost use Rattle.space.specs.Spans.{less, side_of};
ghost use Rattle.space.specs.Admission.{Placed, admitted, refusal_number};

// Where a place lies, seen from a pivot.
#[derive(Clone, Copy, PartialEq, Eq, Debug)]
pub enum Side {
    Left,
    Right,
}

impl Side {
    // Left is below.
    pub fn of<P: PartialOrd + Copy>(place: P, pivot: P) -> Side
        ensures { result ≡ side_of (less P.PartialOrd.partial_cmp) place pivot }
    {
        if place < pivot {
            Side::Left
        } else {
            Side::Right
        }
    }
}

// These coordinates are no place.
#[derive(Clone, Copy, PartialEq, Eq, Debug)]
pub struct NotAdmitted;

impl NotAdmitted {
    // The number that the refusal goes by.
    pub fn number(self) -> u8
        ensures { result ≡ refusal_number self }
    {
        1
    }
}

pub trait Space {
    // what a place is given by
    type Coordinates: Copy;

    type Place: Copy;

    // a bounding box of places
    type Region: Copy;

    // the key of two places, and what each function below computes
    ghost sense: { Sense Self.Place Self.Region };

    // which places a box holds
    ghost Holds: { Self.Region → Self.Place → Type 0 };

    // the place that coordinates have, if they have one
    ghost at: { Self.Coordinates → Option Self.Place };

    // the coordinates of a place
    ghost spot: { Self.Place → Self.Coordinates };

    // The only way to a place.
    fn admit(coordinates: Self::Coordinates) -> Result<Self::Place, NotAdmitted>
        ensures { result ≡ admitted (at coordinates) };

    fn locate(place: Self::Place) -> Self::Coordinates
        ensures { result ≡ spot place };

    fn key(query: Self::Place, place: Self::Place) -> u64
        ensures { result ≡ sense.key query place };

    fn bound(query: Self::Place, region: Self::Region) -> u64
        ensures { result ≡ sense.bound query region };

    fn single(place: Self::Place) -> Self::Region
        ensures { result ≡ sense.single place };

    fn widen(region: Self::Region, place: Self::Place) -> Self::Region
        ensures { result ≡ sense.widened region place };

    // The side is free: no law speaks of it, and nothing above may lean on one.
    fn side(place: Self::Place, pivot: Self::Place, turn: u32) -> Side
        ensures { result ≡ sense.side place pivot turn };

    ghost lawful: { Lawful sense Holds };

    ghost placed: { Placed at spot };
}

// A space whose boxes are the least ones: every box that holds the places that a box was made of contains that box.
pub trait LeastBoxes: Space {
    ghost least: { Least Self.Space.sense Self.Space.Holds };
}

// What every space has shown.
pub fn laws_hold<S: Space>()
    ensures { Lawful S.Space.sense S.Space.Holds }
{}

// Every box that holds the places of an old box and a new place contains the old box widened by the new place.
pub fn widening_is_least<S: LeastBoxes>()
    ensures { WideningLeast S.Space.sense S.Space.Holds }
{}
