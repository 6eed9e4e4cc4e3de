//! A vBucket's checkpoints: the mutations on their way to the store, and who reads how far.
#![tactic(auto)]

mod data;
mod laws;
mod queue;

pub use data::QueueData;
pub use laws::reads_meet_the_last_items;
pub use queue::Queue;

#[cfg(test)]
mod tests;
