// The lines of a listing.
ghost use Rattle.std.specs.Prelude.{Some};
ghost use Rattle.runs.specs.Telling.{load_told};
ghost use Rattle.listing.specs.Lines.{fault_text, neighbour_text, row_line};

use catalogue::Named;
use runs::{Fault, LoadFault};
use std::fmt;

// A record near a sighting, if there is one, as its number and key.
#[derive(Clone, Copy, Debug, PartialEq, Eq)]
pub struct Neighbour {
    pub hit: Option<Named>,
}

impl fmt::Display for Neighbour {
    ghost output = { λ n. Some (neighbour_text n.hit) };

    fn fmt<W: fmt::Write>(&self, f: &mut fmt::Formatter<W>) -> fmt::Result {
        match self.hit {
            Some(Named { number, key, .. }) => write!(f, "{number} {key}"),
            None => write!(f, "- -"),
        }
    }
}

// A sighting's number and coordinates, and the first two records near it. It ends its line.
#[derive(Clone, Copy, Debug, PartialEq, Eq)]
pub struct Row {
    pub number: u32,
    pub chainage: i32,
    pub clock: u16,
    pub first: Neighbour,
    pub second: Neighbour,
}

impl fmt::Display for Row {
    ghost output = { λ row. Some (row_line row) };

    fn fmt<W: fmt::Write>(&self, f: &mut fmt::Formatter<W>) -> fmt::Result {
        let Row {
            number,
            chainage,
            clock,
            first,
            second,
        } = *self;
        writeln!(f, "{number} {chainage} {clock} {first} {second}")
    }
}

// What a listing is where the file has a fault. It ends its line.
#[derive(Clone, Copy, Debug, PartialEq, Eq)]
pub struct FaultLine {
    pub fault: LoadFault,
}

impl fmt::Display for FaultLine {
    ghost output = { λ line. Some (fault_text (load_told line.fault).number line.fault.added) };

    fn fmt<W: fmt::Write>(&self, f: &mut fmt::Formatter<W>) -> fmt::Result {
        let number = self.fault.number();
        let added = self.fault.added;
        writeln!(f, "fault {number} after {added}")
    }
}
