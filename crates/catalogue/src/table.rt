// The catalogue: a growing tree over a lent table.
ghost use Rattle.std.specs.Prelude.{◌≤◌, length, take};
ghost use Rattle.catalogue.specs.Trees.{Tree};

use crate::entries::Entry;
use space::Space;

// The first `used` entries of the table are in use, in the order in which they were added.
// It has no `impl Model`, though it may: behind one a proof knows the value alone, and `grow` and `nearest` would need the
// tree promised again by each method that they call.
#[derive(Drop)]
pub struct Catalogue<'a, S: Space> {
    // lent by the caller: a buffer that grows would need a heap
    pub(crate) entries: &'a mut [Entry<S::Place, S::Region>],
    pub(crate) used: usize,
    pub(crate) root: Option<u16>,
    // the number that tells this catalogue's seats from another's
    pub(crate) mark: u32,
    // how many seats are out
    pub(crate) out: u8,
    ghost within: { used ≤ length entries.now },
    ghost few: { used ≤ 65535 },
    ghost tree: { Tree (take used entries.now) root },
}

impl<'a, S: Space> Catalogue<'a, S> {
    ghost use Rattle.std.specs.Prelude.{◌≡◌};
    ghost use Rattle.catalogue.specs.Views.{seen};

    pub(crate) fn entries_in_use(&self) -> &[Entry<S::Place, S::Region>]
        ensures { result.now ≡ (seen self.now).entries }
    {
        &self.entries[..self.used]
    }
}
