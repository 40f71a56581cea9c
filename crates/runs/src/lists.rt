// A list handed in, as a run. It has no fault of its own.
ghost use Rattle.std.specs.Prelude.{◌≡◌, List};
ghost use Rattle.runs.specs.Rests.{listed};
ghost use Rattle.runs.specs.declared.sightings.Sighting.{Sighting};

use crate::faults::RunFault;
use crate::running::Run;
use crate::sightings::Sighting;
use std::marker::Model;

#[derive(Drop)]
pub struct ListRun<'a, P> {
    left: &'a [Sighting<P>],
}

// A clause sees the sightings still to come.
impl<'a, P> Model for ListRun<'a, P> {
    ghost Value = { List (Sighting P) };

    ghost view = { λ run. run.left.now };
}

impl<'a, P: Copy> ListRun<'a, P> {
    pub fn new(sightings: &'a [Sighting<P>]) -> ListRun<'a, P>
        ensures { result ≡ sightings.now }
    {
        ListRun { left: sightings }
    }
}

impl<'a, P: Copy> Run for ListRun<'a, P> {
    type Place = P;

    ghost rest = { listed };

    fn next(&mut self) -> Result<Option<Sighting<P>>, RunFault> {
        Ok(self.left.split_off_first().copied())
    }
}
