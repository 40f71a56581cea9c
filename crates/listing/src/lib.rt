// The neighbours listing of a feature run file: from its bytes to its text.
// It touches the crates below it and the allocator for its text; it reads and prints nothing.
#![tactic(auto)]

pub mod opening;
pub mod rows;
pub mod texts;

pub use texts::listing;
