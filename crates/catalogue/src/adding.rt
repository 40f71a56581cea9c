// Making a catalogue over a table, and adding records to it.
ghost use Rattle.std.specs.Prelude.{◌≡◌, ◌<◌, length, nat_le};
ghost use Rattle.catalogue.specs.Adding.{borne, next_down, widened_at, attached, grown, added, added_by};
ghost use Rattle.catalogue.specs.States.{made, with_tree, Gives};
ghost use Rattle.catalogue.specs.Views.{seen, table_of, Extends};

use crate::entries::Entry;
use crate::refusals::Refusal;
use crate::table::Catalogue;
use space::Space;

// Links have 16 bits: of a longer table the first 65,535 entries are used, so that `as u16` loses nothing of a position in
// use. `u16::try_from` would add a branch that never runs.
const MOST_ENTRIES: usize = 65535;

impl<'a, S: Space> Catalogue<'a, S> {
    // A catalogue with no entry in use and no seat out.
    pub fn new(entries: &'a mut [Entry<S::Place, S::Region>], mark: u32) -> Self
        ensures value { seen result ≡ made (length entries.old) mark }
        ensures same { table_of result ≡ entries.old }
    {
        Catalogue {
            entries,
            used: 0,
            root: None,
            mark,
            out: 0,
        }
    }

    // How many entries are in use.
    pub fn in_use(&self) -> usize
        ensures { result ≡ length (seen self.now).entries }
    {
        self.entries_in_use().len()
    }

    fn is_full(&self) -> bool
        ensures { result ≡ nat_le (seen self.now).room (length (seen self.now).entries) }
    {
        self.used >= self.entries.len().min(MOST_ENTRIES)
    }

    // Whether an entry in use bears the number.
    fn bears(&self, number: u32) -> bool
        ensures { result ≡ borne number (seen self.now).entries }
    {
        self.entries_in_use().iter().any(|e| e.number == number)
    }

    // Widens the box of an entry in use by the place, and gives the child on the place's side.
    fn widen(&mut self, i: u16, place: S::Place) -> Option<u16>
        requires { i < self.old.used }
        ensures next { result ≡ next_down S.Space.sense place i (seen self.old).entries }
        ensures after { seen self.new ≡ with_tree (widened_at S.Space.sense place i (seen self.old).entries) (seen self.old).root (seen self.old) }
        ensures table { Extends 0 self.old self.new }
    {
        let at = usize::from(i);
        let e = self.entries[at];
        self.entries[at] = e.widened::<S>(place);
        e.child(S::side(place, e.place, e.turn))
    }

    // One record more, the child of this entry in use on the place's side.
    fn attach(&mut self, i: u16, number: u32, place: S::Place)
        requires parent { i < self.old.used }
        requires room { self.old.used < (seen self.old).room }
        ensures after { seen self.new ≡ with_tree (attached S.Space.sense number place i (seen self.old).entries) (seen self.old).root (seen self.old) }
        ensures table { Extends 1 self.old self.new }
    {
        let at = usize::from(i);
        let parent = self.entries[at];
        let side = S::side(place, parent.place, parent.turn);
        let next = self.used;
        self.entries[next] = Entry::leaf::<S>(number, place, parent.turn + 1, Some(i));
        self.used += 1;
        self.entries[at] = parent.with_child(side, next as u16);
    }

    // One record more: a root, or hung where a child is missing on the way down to the place's side, every box widened.
    fn grow(&mut self, number: u32, place: S::Place)
        requires { self.old.used < (seen self.old).room }
        ensures after { seen self.new ≡ grown S.Space.sense number place (seen self.old) }
        ensures table { Extends 1 self.old self.new }
    {
        let Some(root) = self.root else {
            let next = self.used;
            self.entries[next] = Entry::leaf::<S>(number, place, 0, None);
            self.used += 1;
            self.root = Some(next as u16);
            return;
        };
        let mut at = root;
        while let Some(next) = self.widen(at, place) {
            at = next;
        }
        self.attach(at, number, place);
    }

    // Number and place come apart, not joined in a struct: the new entry is what joins them.
    pub fn add(&mut self, number: u32, place: S::Place) -> Result<(), Refusal>
        ensures gives { Gives (added S.Space.sense number place (seen self.old)) (seen self.new) result }
        ensures table { Extends (added_by result) self.old self.new }
    {
        if self.bears(number) {
            return Err(Refusal::NumberInUse);
        }
        if self.is_full() {
            return Err(Refusal::TableFull);
        }
        self.grow(number, place);
        Ok(())
    }
}
