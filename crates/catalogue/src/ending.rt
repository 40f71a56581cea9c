// Closing a search, and reading what it gives.
ghost use Rattle.std.specs.Prelude.{◌≡◌, map};
ghost use Rattle.catalogue.specs.States.{Gives};
ghost use Rattle.catalogue.specs.Stepping.{lost};
ghost use Rattle.catalogue.specs.Ending.{standing, named, closed};
ghost use Rattle.catalogue.specs.Views.{seen, table_of};

use crate::closings::Closing;
use crate::findings::{Hit, Named};
use crate::hits::Hits;
use crate::refusals::Refusal;
use crate::searches::{Phase, Search};
use crate::table::Catalogue;
use arrayvec::ArrayVec;
use space::Space;

impl<'a, S: Space> Catalogue<'a, S> {
    // Whether a standing entry in use has the number.
    fn stands_here(&self, number: u32) -> bool
        ensures { result ≡ standing number (seen self.now).entries }
    {
        self.entries_in_use()
            .iter()
            .any(|e| e.stands && e.number == number)
    }

    // Whether a search in this phase is at an entry not in use.
    fn loses(&self, phase: Phase) -> bool
        ensures { result ≡ lost (seen self.now) phase }
    {
        match phase {
            Phase::Start | Phase::Finished => false,
            Phase::Down(i) | Phase::First(i) | Phase::Second(i) | Phase::Up(i) => {
                self.at(i).is_none()
            }
        }
    }

    fn name(&self, x: Hit) -> Named
        ensures { result ≡ named (seen self.now) x }
    {
        Named {
            number: x.number,
            key: x.key,
            standing: self.stands_here(x.number),
        }
    }

    fn names(&self, hits: &Hits) -> ArrayVec<Named, 16>
        ensures { result.items ≡ map (named (seen self.now)) hits.now.items }
    {
        let mut names = ArrayVec::new();
        // A loop: collecting into an ArrayVec takes an allocator, and extend may fail; 16 always fit.
        for x in hits.as_slice() {
            names.push(self.name(*x));
        }
        names
    }

    // The search ends, finished or not, and its seat is free again. A search refused here is spent all the same.
    pub fn close(&mut self, search: Search<S>) -> Result<Closing, Refusal>
        ensures gives { Gives (closed (seen self.old) search) (seen self.new) result }
        ensures same { table_of self.new ≡ table_of self.old }
    {
        let Search {
            mark,
            inquiry: _,
            phase,
            hits,
            looked,
            steps,
        } = search;
        if self.refuses(mark) || self.loses(phase) {
            return Err(Refusal::NotHere);
        }
        let hits = self.names(&hits);
        self.out -= 1;
        Ok(Closing {
            hits,
            finished: phase.is_finished(),
            looked,
            steps,
        })
    }
}
