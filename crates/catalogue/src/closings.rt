// What closing a search gives.
ghost use Rattle.std.specs.Prelude.{◌≡◌, ◌≤◌, length};

use crate::findings::Named;
use arrayvec::ArrayVec;
use std::marker::Model;

// The hits are in order.
#[derive(Debug, PartialEq, Eq, Drop)]
pub struct Closing {
    pub(crate) hits: ArrayVec<Named, 16>,
    pub(crate) finished: bool,
    pub(crate) looked: u32,
    pub(crate) steps: u32,
    ghost few: { length hits.items ≤ 16 },
}

impl Model for Closing {
    ghost use Rattle.catalogue.specs.Searches.{Report};

    ghost Value = { Report };

    ghost view = { λ c. record { hits = c.hits.items; finished = c.finished; looked = c.looked; steps = c.steps; few = c.few } };

    ghost inverse = { λ r. record { hits = record { items = r.hits }; finished = r.finished; looked = r.looked; steps = r.steps; few = r.few } };
}

impl Closing {
    pub fn hits(&self) -> &[Named]
        ensures hits { result.now ≡ self.now.hits }
        ensures fits { length result.now ≤ 16 }
    {
        self.hits.as_slice()
    }

    pub fn is_finished(&self) -> bool
        ensures { result ≡ self.now.finished }
    {
        self.finished
    }

    // How many records were looked at, withdrawn ones with them.
    pub fn looked(&self) -> u32
        ensures { result ≡ self.now.looked }
    {
        self.looked
    }

    // How many steps were accepted.
    pub fn steps(&self) -> u32
        ensures { result ≡ self.now.steps }
    {
        self.steps
    }
}
