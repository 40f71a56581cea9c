// Attitudes of the pig, and the bends that are told by them. It touches the crate `space` alone.
#![tactic(auto)]

pub mod attitudes;
pub mod axes;
pub mod boxes;
pub mod coordinates;
pub mod kinds;

pub use attitudes::Attitude;
pub use axes::{PerAxis, Quaternion};
pub use boxes::AttitudeBox;
pub use coordinates::AttitudePlace;
pub use kinds::{BendPlace, BendRegion, Bends};
