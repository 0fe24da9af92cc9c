// What is told of a protocol in words for people: who is at which place, who opened, and what it was drawn from.
#![tactic(auto)]

mod parties;
mod places;
mod refused;
mod report;

pub use report::{NoPlace, put_place, put_report};
