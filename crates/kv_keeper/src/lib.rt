//! A store of a vBucket's documents. `Keeper` is what is asked of one, `MemoryKeeper` is one in memory, and a
//! `Desk` stands before a keeper and knows up to which number of its vBucket's history that keeper holds it.
//!
//! A store holds one document a key, deleted ones too, and three numbers. It changes by whole batches: a commit
//! lays all rows of a batch over the documents and sets the numbers, or none of it. Where a commit fails it may
//! have done either, so its desk is then no longer sure of the store.
#![tactic(auto)]

mod batch;
mod data;
mod desk;
mod keeper;
mod memory;
mod row;
mod rows;
#[cfg(test)]
mod tests;

pub use batch::Batch;
pub use data::{AnyKeeper, BatchData, DeskData};
pub use desk::Desk;
pub use keeper::{Keeper, Kept, StoreState};
pub use memory::MemoryKeeper;
