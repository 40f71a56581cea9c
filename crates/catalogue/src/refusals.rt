// What a call of the catalogue refuses, and the number that each refusal goes by.
ghost use Rattle.std.specs.Prelude.{◌≡◌};
ghost use Rattle.catalogue.specs.Refusals.{number_of};

#[derive(Clone, Copy, PartialEq, Eq, Debug)]
pub enum Refusal {
    // an inquiry for no hit, or for more than sixteen
    CountOutOfRange = 2,
    NumberInUse = 3,
    TableFull = 4,
    NoSeatLeft = 6,
    // a step of a search that is finished
    AlreadyFinished = 8,
    // the mark is another catalogue's, no seat is out, or the search is at an entry not in use
    NotHere = 9,
}

impl Refusal {
    pub fn number(self) -> u8
        ensures { result ≡ number_of self }
    {
        // `as`: nothing else reads a discriminant
        self as u8
    }
}
