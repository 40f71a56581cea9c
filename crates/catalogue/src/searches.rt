// A seat, the phases of a search, and a search. Seats and searches are moved, and none can be let go: a seat is spent by
// begin, and a search by close.
use crate::hits::Hits;
use crate::inquiries::Inquiry;
use space::Space;
use std::marker::{Model, PhantomData};

// The right to one search. It carries the mark of the catalogue that it was taken from.
pub struct Seat<S: Space> {
    pub(crate) mark: u32,
    pub(crate) space: PhantomData<S>,
}

impl<S: Space> Model for Seat<S> {
    ghost use Rattle.std.specs.Prelude.{ℕ};

    ghost Value = { ℕ };

    ghost view = { λ s. s.mark };
}

// What the next step does, and at which entry. A search is at none before its first step and after its last.
#[derive(Clone, Copy, Debug, PartialEq, Eq)]
pub enum Phase {
    Start,
    // to look at the entry
    Down(u16),
    // to try its child on the query's own side
    First(u16),
    // to try its other child
    Second(u16),
    // to leave it for its parent
    Up(u16),
    Finished,
}

pub struct Search<S: Space> {
    pub(crate) mark: u32,
    pub(crate) inquiry: Inquiry<S::Place>,
    pub(crate) phase: Phase,
    pub(crate) hits: Hits,
    // records looked at, and accepted steps: both stop at 2^32 − 1
    pub(crate) looked: u32,
    pub(crate) steps: u32,
}

impl<S: Space> Model for Search<S> {
    ghost use Rattle.catalogue.specs.Searches.{Progress};

    ghost Value = { Progress S.Place };

    ghost view = { λ s. record {
      mark = s.mark;
      inquiry = s.inquiry;
      phase = s.phase;
      hits = s.hits.items;
      looked = s.looked;
      steps = s.steps;
      few = s.hits.few;
    } };
}
