// Bends by their space, and their weight.
ghost use Rattle.space.specs.Sense.{Lawful};
ghost use Rattle.space.specs.Least.{WideningLeast};
ghost use Rattle.pipe.specs.Kinds.{bends_sense, BendsHold};
ghost use Rattle.std.proofs.Common.{rules};

use crate::attitudes::Attitude;
use crate::boxes::AttitudeBox;
use crate::coordinates::AttitudePlace;
use space::laws::{laws_hold, widening_is_least};
use space::pairs::{Both, Pair};
use space::weights::{Weight, Weighted};
use space::{Line, LinePlace, Span};

// A bend has a chainage and the pig's attitude in it.
pub type Bends = Pair<Line, Weighted<Attitude, ComponentWeight>>;

pub type BendPlace = Both<LinePlace, AttitudePlace>;

pub type BendRegion = Both<Span<LinePlace>, AttitudeBox>;

// One unit of a component counts as 2 tenths of a millimetre along the pipe, so its square as 4.
pub struct ComponentWeight;

impl Weight for ComponentWeight {
    const AMOUNT: u16 = 4;

    ghost AMOUNT = { 4 };

    ghost positive = { Prim.search rules };

    ghost small = { Prim.search rules };
}

// Bends are the space that their definition says, and keep the laws.
pub fn bends_keep_the_laws()
    ensures { Lawful bends_sense BendsHold }
{
    laws_hold::<Bends>();
}

// Of bends too, widening gives the least box.
pub fn bends_widen_least()
    ensures { WideningLeast bends_sense BendsHold }
{
    widening_is_least::<Bends>();
}
