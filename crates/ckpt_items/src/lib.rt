//! The items of a vBucket's checkpoints: mutations on their way to the store, in blocks of a pool of their own.
#![tactic(auto)]

mod bytes;
mod data;
mod item;
mod items;
mod search;

pub use data::{ItemData, ItemsData};
pub use items::Items;
pub use value_pool::Short;
