//! The plainest parts of a vBucket: a stripe and a queue that are lists, and are scanned. A call on them comes to what
//! `specs/Steps` computes, and leaves them so.
#![tactic(auto)]

mod data;
mod node;
mod nodes;
mod place;
mod places;
mod queue;
mod stripe;
pub mod write;

pub use data::{
    NodeData, Outcome, PageData, PlaceData, QueueData, ReadData, Step, StripeData, WriteData,
};
pub use node::{Node, Residency};
pub use place::Place;
pub use queue::{Document, FlatQueue, Item};
pub use stripe::FlatStripe;

#[cfg(test)]
mod tests;
