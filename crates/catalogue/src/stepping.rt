// One step of a search: the move of the phase in which it is.
ghost use Rattle.std.specs.Prelude.{◌≡◌, ◌&&◌};
ghost use Rattle.std.specs.Option.{ok_or};
ghost use Rattle.std.specs.List.{slice_get};
ghost use Rattle.catalogue.specs.declared.refusals.Refusal.TheVariants.{NotHere};
ghost use Rattle.catalogue.specs.States.{Gives};
ghost use Rattle.catalogue.specs.Stepping.{other, entered, own, into, listable, looking, passed, visit, climb, stepped};
ghost use Rattle.catalogue.specs.Views.{seen};

use crate::entries::Entry;
use crate::findings::Hit;
use crate::refusals::Refusal;
use crate::searches::{Phase, Search};
use crate::table::Catalogue;
use space::{Side, Space};

impl<S: Space> Search<S> {
    // The query's own side of an entry.
    fn own_side(&self, e: Entry<S::Place, S::Region>) -> Side
        ensures { result ≡ own S.Space.sense self.now e }
    {
        S::side(self.inquiry.place, e.place, e.turn)
    }

    fn other_side(&self, e: Entry<S::Place, S::Region>) -> Side
        ensures { result ≡ other (own S.Space.sense self.now e) }
    {
        match self.own_side(e) {
            Side::Left => Side::Right,
            Side::Right => Side::Left,
        }
    }

    // One accepted step, into this phase.
    fn go(&mut self, phase: Phase)
        ensures { self.new ≡ into phase self.old }
    {
        self.phase = phase;
        self.steps = self.steps.saturating_add(1);
    }

    // Whether a hit is listed: of a standing entry, within the limit, and there is room or it comes before the last.
    fn wants(&self, stands: bool, x: Hit) -> bool
        ensures { result ≡ (stands && listable x self.now) }
    {
        stands
            && (x.key <= self.inquiry.limit
                && (self.hits.count() < self.inquiry.count || self.hits.before_last(x)))
    }

    fn look_at(&mut self, e: Entry<S::Place, S::Region>)
        ensures { self.new ≡ looking S.Space.sense e self.old }
    {
        let x = Hit {
            number: e.number,
            key: S::key(self.inquiry.place, e.place),
        };
        let k = self.inquiry.count;
        if self.wants(e.stands, x) {
            self.hits.list(x, k);
        }
        self.looked = self.looked.saturating_add(1);
    }

    // Whether nothing in this box can be listed any more.
    fn passes(&self, region: S::Region) -> bool
        ensures { result ≡ passed S.Space.sense self.now region }
    {
        let bound = S::bound(self.inquiry.place, region);
        bound > self.inquiry.limit
            || (self.hits.count() >= self.inquiry.count && self.hits.above_last(bound))
    }
}

impl<'a, S: Space> Catalogue<'a, S> {
    // The entry at an index, if it is in use.
    pub(crate) fn at(&self, i: u16) -> Option<Entry<S::Place, S::Region>>
        ensures { result ≡ slice_get (seen self.now).entries i }
    {
        self.entries_in_use().get(usize::from(i)).copied()
    }

    // Down to this child, unless it is missing or passed over.
    fn towards(&self, search: &Search<S>, link: Option<u16>, otherwise: Phase) -> Phase
        ensures { result ≡ visit S.Space.sense (seen self.now) search.now link otherwise }
    {
        if let Some(j) = link
            && let Some(e) = self.at(j)
            && !search.passes(e.region)
        {
            Phase::Down(j)
        } else {
            otherwise
        }
    }

    // From entry i up to this parent, whose other child is next if i is its first.
    fn upwards(&self, search: &Search<S>, i: u16, link: Option<u16>) -> Phase
        ensures { result ≡ climb S.Space.sense (seen self.now) search.now i link }
    {
        if let Some(j) = link
            && let Some(e) = self.at(j)
        {
            if e.child(search.own_side(e)) == Some(i) {
                Phase::Second(j)
            } else {
                Phase::Up(j)
            }
        } else {
            Phase::Finished
        }
    }

    // Where a search begins.
    fn entrance(&self) -> Phase
        ensures { result ≡ entered (seen self.now) }
    {
        self.root.map_or(Phase::Finished, Phase::Down)
    }

    // The entry that a search is at.
    fn found(&self, i: u16) -> Result<Entry<S::Place, S::Region>, Refusal>
        ensures { result ≡ ok_or (slice_get (seen self.now).entries i) NotHere }
    {
        self.at(i).ok_or(Refusal::NotHere)
    }

    pub fn step(&self, search: &mut Search<S>) -> Result<(), Refusal>
        ensures { Gives (stepped S.Space.sense (seen self.now) search.old) search.new result }
    {
        if self.refuses(search.mark) {
            return Err(Refusal::NotHere);
        }
        // A match is plainest here: each phase has a move of its own, over other data.
        let phase = match search.phase {
            Phase::Start => self.entrance(),
            Phase::Down(i) => {
                search.look_at(self.found(i)?);
                Phase::First(i)
            }
            Phase::First(i) => {
                let e = self.found(i)?;
                self.towards(search, e.child(search.own_side(e)), Phase::Second(i))
            }
            Phase::Second(i) => {
                let e = self.found(i)?;
                self.towards(search, e.child(search.other_side(e)), Phase::Up(i))
            }
            Phase::Up(i) => self.upwards(search, i, self.found(i)?.parent),
            Phase::Finished => return Err(Refusal::AlreadyFinished),
        };
        search.go(phase);
        Ok(())
    }
}
