// Attitudes: unit quaternions times 16,384, the square of the chord for a key. A quaternion and its negative turn the pig the
// same way, so the nearer of the two counts.
ghost use Rattle.std.specs.Prelude.{◌≡◌, int_lt};
ghost use Rattle.pipe.specs.Axes.{along, each};
ghost use Rattle.space.specs.Spans.{span_nearest};
ghost use Rattle.space.specs.Lines.{square};
ghost use Rattle.pipe.specs.Squares.{sum_of_squares};
ghost use Rattle.pipe.specs.Attitudes.{attitude_sense, AttitudeHolds, attitude_at, attitude_spot, chord, turned};
ghost use Rattle.pipe.specs.Chords.{attitude_lawful, attitude_least};
ghost use Rattle.pipe.specs.Spots.{attitude_back, attitude_true};

use crate::axes::{Axis, Quaternion};
use crate::boxes::AttitudeBox;
use crate::coordinates::AttitudePlace;
use space::laws::{LeastBoxes, NotAdmitted, Side, Space};
use space::spans::Span;

// rounding the components of a unit quaternion times 16,384 moves the sum of their squares, 16,384², by 32,769 at most
const LEAST_SUM: u64 = 268402687;

const GREATEST_SUM: u64 = 268468225;

pub struct Attitude;

fn square_of(difference: u16) -> u32
    ensures { result ≡ square difference }
{
    let wide = u32::from(difference);
    wide * wide
}

fn sum_of_squares(value: Quaternion) -> u64
    ensures { result ≡ sum_of_squares value }
{
    value
        .map(|component| square_of(component.unsigned_abs()))
        .sum()
}

// The square of the distance.
fn apart(from: Quaternion, to: Quaternion) -> u64
    ensures { result ≡ chord from to }
{
    from.zip(to).map(|(a, b)| square_of(a.abs_diff(b))).sum()
}

impl AttitudePlace {
    // All signs turned. The admitted band keeps every component far from −32,768, so each has a negative.
    fn turned(self) -> Quaternion
        ensures { result ≡ turned self.value }
    {
        self.value.map(|component| -component)
    }
}

impl AttitudeBox {
    // The point of the box that is nearest to another.
    fn nearest(self, value: Quaternion) -> Quaternion
        ensures { result ≡ each (λ i. span_nearest int_lt (along self.ranges i) (along value i)) }
    {
        self.ranges
            .zip(value)
            .map(|(range, component)| range.nearest(component))
    }
}

impl Space for Attitude {
    type Coordinates = Quaternion;

    type Place = AttitudePlace;

    type Region = AttitudeBox;

    ghost sense = { attitude_sense };

    ghost Holds = { AttitudeHolds };

    ghost at = { attitude_at };

    ghost spot = { attitude_spot };

    ghost lawful = { attitude_lawful };

    ghost placed = { record { returns = attitude_back; true_to = attitude_true } };

    fn admit(coordinates: Quaternion) -> Result<AttitudePlace, NotAdmitted> {
        let sum = sum_of_squares(coordinates);
        if (LEAST_SUM..=GREATEST_SUM).contains(&sum) {
            Ok(AttitudePlace { value: coordinates })
        } else {
            Err(NotAdmitted)
        }
    }

    fn locate(place: AttitudePlace) -> Quaternion {
        place.value
    }

    fn key(query: AttitudePlace, place: AttitudePlace) -> u64 {
        apart(query.value, place.value).min(apart(query.turned(), place.value))
    }

    fn bound(query: AttitudePlace, region: AttitudeBox) -> u64 {
        let turned = query.turned();
        apart(query.value, region.nearest(query.value)).min(apart(turned, region.nearest(turned)))
    }

    fn single(place: AttitudePlace) -> AttitudeBox {
        AttitudeBox {
            ranges: place.value.map(Span::of),
        }
    }

    fn widen(region: AttitudeBox, place: AttitudePlace) -> AttitudeBox {
        AttitudeBox {
            ranges: region
                .ranges
                .zip(place.value)
                .map(|(range, component)| range.widened(component)),
        }
    }

    fn side(place: AttitudePlace, pivot: AttitudePlace, turn: u32) -> Side {
        let axis = Axis::at(turn);
        Side::of(place.value.along(axis), pivot.value.along(axis))
    }
}

impl LeastBoxes for Attitude {
    ghost least = { attitude_least };
}
