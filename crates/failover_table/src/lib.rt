//! A vBucket's failover table.
#![tactic(auto)]

mod table;

pub use table::{Failovers, MAX_ENTRIES};
