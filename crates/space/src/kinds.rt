// The kinds of record by their spaces, and their weights.
ghost use Rattle.space.specs.Sense.{Lawful};
ghost use Rattle.space.specs.Least.{WideningLeast};
ghost use Rattle.space.specs.Lines.{line_sense, LineHolds};
ghost use Rattle.space.specs.Kinds.{features_sense, FeaturesHold};
ghost use Rattle.std.proofs.Common.{rules};

use crate::clocks::Clock;
use crate::coordinates::{ClockPlace, LinePlace};
use crate::laws::{Space, laws_hold, widening_is_least};
use crate::lines::Line;
use crate::pairs::{Both, Pair};
use crate::spans::Span;
use crate::weights::{Weight, Weighted};

// A girth weld is told by its chainage alone.
pub type Welds = Line;

// A feature has a chainage and a minute of the clock face.
pub type Features = Pair<Line, Weighted<Clock, MinuteWeight>>;

pub type FeaturePlace = Both<LinePlace, ClockPlace>;

pub type FeatureRegion = Both<Span<LinePlace>, Span<ClockPlace>>;

// One minute round the wall counts as 7 tenths of a millimetre along it, so its square as 49.
pub struct MinuteWeight;

impl Weight for MinuteWeight {
    const AMOUNT: u16 = 49;

    ghost AMOUNT = { 49 };

    ghost positive = { Prim.search rules };

    ghost small = { Prim.search rules };
}

// Each kind is the space that its definition says, and keeps the laws.
pub fn kinds_keep_the_laws()
    ensures welds { Lawful line_sense LineHolds }
    ensures features { Lawful features_sense FeaturesHold }
{
    laws_hold::<Welds>();
    laws_hold::<Features>();
}

// In every kind, widening gives the least box.
pub fn kinds_widen_least()
    ensures welds { WideningLeast line_sense LineHolds }
    ensures features { WideningLeast features_sense FeaturesHold }
{
    widening_is_least::<Welds>();
    widening_is_least::<Features>();
}

// The crate `examples` has these again at more values; a test stays where it stands.
#[cfg(test)]
mod tests {
    use super::*;
    use crate::laws::Space;
    use std::test::Fail;

    // The largest key of a line: a difference of 2^32 − 1.
    #[test]
    fn the_ends_of_the_line(rt: HostRuntime) -> Result<(), Fail> {
        let low = Line::admit(-2147483648)?;
        let high = Line::admit(2147483647)?;
        assert_eq!(rt; Line::key(low, high), 18446744065119617025);
        assert_eq!(rt; Line::bound(high, Line::single(low)), 18446744065119617025);
        Ok(())
    }

    #[test]
    fn a_clock_box_does_not_wrap_but_its_bound_does(rt: HostRuntime) -> Result<(), Fail> {
        assert!(rt; Clock::admit(720).is_err());
        let query = Clock::admit(719)?;
        let low = Clock::admit(5)?;
        let high = Clock::admit(700)?;
        let region = Clock::widen(Clock::single(high), low);
        assert_eq!(rt; Clock::bound(query, region), 36);
        assert_eq!(rt; Clock::bound(low, region), 0);
        Ok(())
    }

    #[test]
    fn a_feature_weighs_minutes_by_49(rt: HostRuntime) -> Result<(), Fail> {
        let before_twelve = Features::admit(Both {
            first: 100,
            second: 715,
        })?;
        let after_twelve = Features::admit(Both {
            first: 100,
            second: 5,
        })?;
        assert_eq!(rt; Features::key(before_twelve, after_twelve), 4900);
        assert!(rt;
            Features::admit(Both {
                first: 100,
                second: 720,
            })
            .is_err()
        );
        Ok(())
    }
}
