// The places of attitudes. Only the space's `admit` makes one: its field is the crate's own.
ghost use Rattle.std.specs.Prelude.{◌≤◌};
ghost use Rattle.pipe.specs.Squares.{sum_of_squares};

use crate::axes::Quaternion;

// An attitude of the pig: a unit quaternion times 16,384, rounded, so that its squares sum to about 16,384².
#[derive(Clone, Copy, PartialEq, Eq, Debug)]
pub struct AttitudePlace {
    pub(crate) value: Quaternion,
    ghost lowest: { 268402687 ≤ sum_of_squares value },
    ghost highest: { sum_of_squares value ≤ 268468225 },
}
