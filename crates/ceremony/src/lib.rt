// A draw from its first entry to its order: a state for each phase.
//
// Entries are taken until the list is closed, seals until the seals are closed, openings until the final close, which
// draws the order. A closing consumes its state and gives the next, or gives the same state back with the refusal. All
// memory is lent by the caller.
#![tactic(auto)]

mod closed;
mod entering;
mod finished;
mod memory;
mod opening;
mod sealing;
mod step;

pub use entering::Listing;
pub use finished::Finished;
pub use memory::{ClosedList, Memory};
pub use opening::Opening;
pub use sealing::Sealing;
pub use step::Draw;
