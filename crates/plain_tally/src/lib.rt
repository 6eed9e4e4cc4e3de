//! What the quota counts, by a plain program over plain lists: the pinned blocks of a stripe, and the checkpoints of a
//! vBucket with the blocks of what they keep. It is the oracle of tests.
#![tactic(auto)]

mod checkpoints;
mod documents;
mod item;
pub mod laws;
mod puts;
mod world;

pub use checkpoints::PlainCheckpoints;
pub use documents::pinned;
pub use item::PlainItem;
pub use world::PlainWorld;

#[cfg(test)]
mod tests;
