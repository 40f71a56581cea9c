// A whole search in one call: the records nearest to a place.
ghost use Rattle.std.specs.Prelude.{◌≡◌};
ghost use Rattle.catalogue.specs.States.{Gives};
ghost use Rattle.catalogue.specs.Nearest.{ran, enough, found};
ghost use Rattle.catalogue.specs.Views.{seen, table_of};

use crate::closings::Closing;
use crate::inquiries::Inquiry;
use crate::refusals::Refusal;
use crate::searches::Search;
use crate::seats::begin;
use crate::table::Catalogue;
use space::Space;

impl<'a, S: Space> Catalogue<'a, S> {
    // Steps a search until a step is refused, at most four times for each entry in use and once.
    pub fn run(&self, search: &mut Search<S>)
        ensures { search.new ≡ ran S.Space.sense (enough S.Space.sense (seen self.now)) (seen self.now) search.old }
    {
        let budget = 4 * self.in_use() + 1;
        // A loop: with try_for_each the proof did not close, since its closure changes what it captures.
        for _taken in 0..budget {
            if self.step(search).is_err() {
                break;
            }
        }
    }

    // The records nearest to the inquiry's place, at most as many as it counts and within its limit. It needs a free seat.
    pub fn nearest(&mut self, inquiry: Inquiry<S::Place>) -> Result<Closing, Refusal>
        ensures gives { Gives (found S.Space.sense inquiry (seen self.old)) (seen self.new) result }
        ensures back { seen self.new ≡ seen self.old }
        ensures same { table_of self.new ≡ table_of self.old }
    {
        let seat = self.take_seat()?;
        let mut search = begin(seat, inquiry);
        self.run(&mut search);
        self.close(search)
    }
}
