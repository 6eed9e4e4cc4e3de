//! Calls on the parts of a vBucket: what each part is to a history, and what a call on held parts answers and leaves.
#![tactic(auto)]

mod at_stage;
mod controls;
mod get;
mod hold;
pub mod laws;
mod part;
pub mod queue_laws;
mod step;
pub mod stripe_laws;
mod wait;
mod writes;

pub use at_stage::{Tried, try_call};
pub use controls::control;
pub use get::read;
pub use part::{DeskPart, Part, StripePart};
pub use step::Step;
pub use writes::write;

#[cfg(test)]
mod tests;
