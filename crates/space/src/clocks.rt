// The clock face: minutes from 0 to 719, the square of the shorter way round for a key. Boxes do not go over twelve o'clock.
ghost use Rattle.space.specs.Clocks.{clock_sense, clock_below, clock_key, clock_bound, ClockHolds, clock_at, clock_spot};
ghost use Rattle.space.specs.Ranges.{spans_lawful, spans_least};
ghost use Rattle.space.specs.Nearness.{clock_near, clock_fits, clock_ordered, clock_at_least};
ghost use Rattle.space.specs.Admitting.{clock_back, clock_true};

use crate::coordinates::ClockPlace;
use crate::laws::{LeastBoxes, NotAdmitted, Side, Space};
use crate::spans::Span;

// the minutes of the face
const FACE: u16 = 720;

// What `Line` and `Clock` share is `Span`. One generic space for both is no plainer: a trait would declare admit, locate, key and
// bound once more, to save calls of one line.
pub struct Clock;

impl Space for Clock {
    type Coordinates = u16;

    type Place = ClockPlace;

    type Region = Span<ClockPlace>;

    ghost sense = { clock_sense };

    ghost Holds = { ClockHolds };

    ghost at = { clock_at };

    ghost spot = { clock_spot };

    ghost lawful = { spans_lawful clock_below clock_key clock_bound clock_ordered clock_near clock_fits };

    ghost placed = { record { returns = clock_back; true_to = clock_true } };

    fn admit(coordinates: u16) -> Result<ClockPlace, NotAdmitted> {
        if coordinates < FACE {
            Ok(ClockPlace {
                minute: coordinates,
            })
        } else {
            Err(NotAdmitted)
        }
    }

    fn locate(place: ClockPlace) -> u16 {
        place.minute
    }

    fn key(query: ClockPlace, place: ClockPlace) -> u64 {
        let gap = query.minute.abs_diff(place.minute);
        let arc = u64::from(gap.min(FACE - gap));
        arc * arc
    }

    fn bound(query: ClockPlace, region: Span<ClockPlace>) -> u64 {
        if (region.low..=region.high).contains(&query) {
            0
        } else {
            Clock::key(query, region.low).min(Clock::key(query, region.high))
        }
    }

    fn single(place: ClockPlace) -> Span<ClockPlace> {
        Span::of(place)
    }

    fn widen(region: Span<ClockPlace>, place: ClockPlace) -> Span<ClockPlace> {
        region.widened(place)
    }

    fn side(place: ClockPlace, pivot: ClockPlace, turn: u32) -> Side {
        Side::of(place, pivot)
    }
}

impl LeastBoxes for Clock {
    ghost least = { spans_least clock_below clock_key clock_bound clock_at_least };
}
