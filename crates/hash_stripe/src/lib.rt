//! A stripe of a vBucket's hash table: what memory has of the documents of some keys, with ejecting of clean ones where
//! room is wanting. All room is taken when the stripe is made.
#![tactic(auto)]

mod found;
mod laws;
mod room;
mod search;
mod stripe;
mod table;

pub use found::{Counts, Found};
pub use laws::{
    calls_are_keywise, ejecting_is_slotwise, nodes_take_blocks, pinned_blocks_stay,
    slots_are_keywise,
};
pub use stripe::Stripe;
pub use value_pool::Short;

#[cfg(test)]
mod tests;
