// Taking a seat of a catalogue, and beginning a search with it.
ghost use Rattle.std.specs.Prelude.{◌≡◌, ◌≤◌, length};
ghost use Rattle.catalogue.specs.States.{Gives};
ghost use Rattle.catalogue.specs.Seats.{seated, begun, strange};
ghost use Rattle.catalogue.specs.Stepping.{finished};
ghost use Rattle.catalogue.specs.Views.{seen, table_of};

use crate::hits::Hits;
use crate::inquiries::Inquiry;
use crate::refusals::Refusal;
use crate::searches::{Phase, Search, Seat};
use crate::table::Catalogue;
use space::Space;
use std::marker::PhantomData;

// A catalogue has so many seats.
const SEATS: u8 = 8;

// A seat becomes a search.
pub fn begin<S: Space>(seat: Seat<S>, inquiry: Inquiry<S::Place>) -> Search<S>
    ensures { result ≡ begun seat inquiry }
{
    let Seat { mark, space: _ } = seat;
    Search {
        mark,
        inquiry,
        phase: Phase::Start,
        hits: Hits::none(),
        looked: 0,
        steps: 0,
    }
}

impl Phase {
    pub(crate) fn is_finished(self) -> bool
        ensures { result ≡ finished self }
    {
        matches!(self, Phase::Finished)
    }
}

impl<S: Space> Search<S> {
    pub fn is_finished(&self) -> bool
        ensures value { result ≡ finished self.now.phase }
        ensures fits { length self.now.hits ≤ 16 }
    {
        self.phase.is_finished()
    }
}

impl<'a, S: Space> Catalogue<'a, S> {
    // `same` stands here and in two more contracts: one short equation of two states, which a name would only hide.
    pub fn take_seat(&mut self) -> Result<Seat<S>, Refusal>
        ensures gives { Gives (seated (seen self.old)) (seen self.new) result }
        ensures same { table_of self.new ≡ table_of self.old }
    {
        if self.out >= SEATS {
            return Err(Refusal::NoSeatLeft);
        }
        self.out += 1;
        Ok(Seat {
            mark: self.mark,
            space: PhantomData,
        })
    }

    // Whether no seat with this mark is out here.
    pub(crate) fn refuses(&self, mark: u32) -> bool
        ensures { result ≡ strange (seen self.now) mark }
    {
        mark != self.mark || self.out == 0
    }
}
