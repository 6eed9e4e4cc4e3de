//! A stage of a vBucket between threads. Each part has a turn, a word that is 0 while nobody has the part, and a slot.
//! No history is stored: a word counts the events, and each pass knows a front of the history, which exists in proofs
//! alone.
//!
//! `specs/Rule` says what holds between any two atomic steps.
#![tactic(auto)]

mod atomic;
mod data;
pub mod laws;
mod pass;
mod rule;
mod slots;
mod stage;
mod table;
mod turns;

pub use data::{JoinData, PassData, View};
pub use pass::TurnPass;
pub use stage::TurnStage;
pub use table::Turns;

#[cfg(test)]
mod tests;
