// Ranges of places in one order: the boxes of the line and of the clock.
ghost use Rattle.std.specs.Prelude.{◌≡◌};
ghost use Rattle.space.specs.Spans.{less, span_of, span_widened, span_nearest};

// The places from `low` to `high`, both ends in. That `low` is not above `high` is not in the type: each definition that names a
// span would take the order's ghost members as arguments, and no law needs it.
#[derive(Clone, Copy, PartialEq, Eq, Debug)]
pub struct Span<P> {
    pub(crate) low: P,
    pub(crate) high: P,
}

impl<P: PartialOrd + Copy> Span<P> {
    pub fn of(place: P) -> Self
        ensures { result ≡ span_of place }
    {
        Span {
            low: place,
            high: place,
        }
    }

    // By `<` alone: `min` and `max` would ask for a total order.
    pub fn widened(self, place: P) -> Self
        ensures { result ≡ span_widened (less P.PartialOrd.partial_cmp) self place }
    {
        Span {
            low: if place < self.low { place } else { self.low },
            high: if self.high < place { place } else { self.high },
        }
    }

    // The place of the span that is nearest to another, or that one itself from inside. `clamp` would ask for a total order, and
    // for ends in that order.
    pub fn nearest(self, other: P) -> P
        ensures { result ≡ span_nearest (less P.PartialOrd.partial_cmp) self other }
    {
        if other < self.low {
            self.low
        } else if self.high < other {
            self.high
        } else {
            other
        }
    }
}
