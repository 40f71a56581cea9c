// Runs of sightings: what a run is, its faults layer on layer, a list as a run, and loading a catalogue from any run.
// It touches `space` and `catalogue`, and knows a space and a run only by their traits.
#![tactic(auto)]

pub mod faults;
pub mod layers;
pub mod lists;
pub mod loading;
pub mod running;
pub mod sightings;
pub mod telling;

pub use faults::{FileFault, LoadFault, RunFault, Stop};
pub use lists::ListRun;
pub use loading::load;
pub use running::Run;
pub use sightings::Sighting;
pub use telling::{Fault, Told};
