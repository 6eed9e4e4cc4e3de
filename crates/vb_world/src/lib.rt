//! The vBuckets of a bucket for one thread: their parts, and their histories in one log.
#![tactic(auto)]

mod data;
mod event_log;
mod history;
mod origin;
mod place;
mod stage;
mod world;

pub use data::{BucketData, FixedData, WorldData};
pub use history::History;
pub use place::Place;
pub use stage::WorldStage;
pub use world::World;

#[cfg(test)]
mod tests;
#[cfg(test)]
mod world_tests;
