// The line: signed 32-bit coordinates, the square of the difference for a key.
ghost use Rattle.space.specs.Lines.{line_sense, line_below, line_key, line_bound, LineHolds, line_at, line_spot};
ghost use Rattle.space.specs.Ranges.{spans_lawful, spans_least};
ghost use Rattle.space.specs.Nearness.{line_near, line_fits, line_ordered, line_at_least};
ghost use Rattle.space.specs.Admitting.{line_back, line_true};

use crate::coordinates::LinePlace;
use crate::laws::{LeastBoxes, NotAdmitted, Side, Space};
use crate::spans::Span;

pub struct Line;

impl Space for Line {
    type Coordinates = i32;

    type Place = LinePlace;

    type Region = Span<LinePlace>;

    ghost sense = { line_sense };

    ghost Holds = { LineHolds };

    ghost at = { line_at };

    ghost spot = { line_spot };

    ghost lawful = { spans_lawful line_below line_key line_bound line_ordered line_near line_fits };

    ghost placed = { record { returns = line_back; true_to = line_true } };

    fn admit(coordinates: i32) -> Result<LinePlace, NotAdmitted> {
        Ok(LinePlace { value: coordinates })
    }

    fn locate(place: LinePlace) -> i32 {
        place.value
    }

    fn key(query: LinePlace, place: LinePlace) -> u64 {
        let gap = u64::from(query.value.abs_diff(place.value));
        gap * gap
    }

    fn bound(query: LinePlace, region: Span<LinePlace>) -> u64 {
        Line::key(query, region.nearest(query))
    }

    fn single(place: LinePlace) -> Span<LinePlace> {
        Span::of(place)
    }

    fn widen(region: Span<LinePlace>, place: LinePlace) -> Span<LinePlace> {
        region.widened(place)
    }

    fn side(place: LinePlace, pivot: LinePlace, turn: u32) -> Side {
        Side::of(place, pivot)
    }
}

impl LeastBoxes for Line {
    ghost least = { spans_least line_below line_key line_bound line_at_least };
}
