// One entry of the table: a record, and where it hangs in the tree.
ghost use Rattle.std.specs.Prelude.{◌≡◌};
ghost use Rattle.catalogue.specs.Entries.{unused, child, with_child, leaf, wider};

use space::{Side, Space};

// Links are positions in the table: it is lent, and without a heap there is no other place for a tree.
#[derive(Clone, Copy, Debug, PartialEq, Eq)]
pub struct Entry<P, B> {
    pub(crate) number: u32,
    pub(crate) place: P,
    // its level, 0 at the root: the turn at which other places are compared with it
    pub(crate) turn: u32,
    // a box of all places at and below it
    pub(crate) region: B,
    pub(crate) left: Option<u16>,
    pub(crate) right: Option<u16>,
    pub(crate) parent: Option<u16>,
    // false once it is withdrawn: it stays in the tree
    pub(crate) stands: bool,
}

// An entry to make a table of. What it holds never matters: an add writes over it. A free function, since a caller names
// the space alone: `blank::<Line>(place)`.
pub fn blank<S: Space>(place: S::Place) -> Entry<S::Place, S::Region>
    ensures { result ≡ unused S.Space.sense place }
{
    Entry {
        stands: false,
        ..Entry::leaf::<S>(0, place, 0, None)
    }
}

impl<P: Copy, B: Copy> Entry<P, B> {
    // The entry of a new record: a leaf of the tree.
    pub(crate) fn leaf<S: Space<Place = P, Region = B>>(
        number: u32,
        place: P,
        turn: u32,
        parent: Option<u16>,
    ) -> Self
        ensures { result ≡ leaf S.Space.sense number place turn parent }
    {
        Entry {
            number,
            place,
            turn,
            region: S::single(place),
            left: None,
            right: None,
            parent,
            stands: true,
        }
    }

    pub(crate) fn widened<S: Space<Place = P, Region = B>>(self, place: P) -> Self
        ensures { result ≡ wider S.Space.sense place self }
    {
        Entry {
            region: S::widen(self.region, place),
            ..self
        }
    }

    pub(crate) fn child(self, side: Side) -> Option<u16>
        ensures { result ≡ child side self }
    {
        match side {
            Side::Left => self.left,
            Side::Right => self.right,
        }
    }

    pub(crate) fn with_child(self, side: Side, i: u16) -> Self
        ensures { result ≡ with_child side i self }
    {
        match side {
            Side::Left => Entry {
                left: Some(i),
                ..self
            },
            Side::Right => Entry {
                right: Some(i),
                ..self
            },
        }
    }
}
