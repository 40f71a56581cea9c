// Places, bounding boxes and keys: the trait `Space` with its laws, the spaces, and the kinds of record that use them.
// Whole numbers only, and every result is an equation with a definition. It touches no other crate.
#![tactic(auto)]

pub mod clocks;
pub mod coordinates;
pub mod kinds;
pub mod laws;
pub mod lines;
pub mod pairs;
pub mod spans;
pub mod weights;

pub use clocks::Clock;
pub use coordinates::{ClockPlace, LinePlace};
pub use kinds::{FeaturePlace, FeatureRegion, Features, Welds};
pub use laws::{LeastBoxes, NotAdmitted, Side, Space};
pub use lines::Line;
pub use pairs::{Both, Pair};
pub use spans::Span;
pub use weights::{Weight, Weighted};
