// A catalogue of records over a lent table: adding records to the growing tree, taking seats, and searching step by step
// for the nearest records. It touches the crate `space`, whose spaces it knows only by their trait, and `arrayvec`, which
// keeps hits without a heap.
#![tactic(auto)]

pub mod adding;
pub mod closings;
pub mod ending;
pub mod entries;
pub mod findings;
pub mod hits;
pub mod inquiries;
pub mod nearest;
pub mod refusals;
pub mod searches;
pub mod seats;
pub mod stepping;
pub mod table;
#[cfg(test)]
mod tests;

pub use closings::Closing;
pub use entries::{Entry, blank};
pub use findings::Named;
// older names of two modules
pub use hits as ordering;
pub use inquiries as asking;
pub use inquiries::Inquiry;
pub use refusals::Refusal;
pub use searches::{Search, Seat};
pub use seats::begin;
pub use table::Catalogue;
