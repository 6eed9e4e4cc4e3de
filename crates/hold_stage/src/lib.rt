//! How parts of a vBucket are taken, changed and given back, and events are noted meanwhile. A part is the stripe
//! of some keys, the queue of what isn't stored yet, or the desk that the store is written from. What is known
//! of a vBucket's history is a front of it.
//!
//! `specs/Touches` says which parts an event touches. An event is noted only while each of these is held, so that
//! what is held stands for the history whatever others note meanwhile.
#![tactic(auto)]

pub mod histories;
pub mod laws;
mod prior;
mod slots;
mod stage;

pub use prior::is_prior;
pub use slots::slot_of;
pub use stage::{Beginning, Stage, Stands};
