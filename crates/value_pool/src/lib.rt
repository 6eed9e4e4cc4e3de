//! A fixed region of blocks of 128 bytes that holds byte lists as chains of blocks.
#![tactic(auto)]

mod memory;
mod pieces;
mod pool;
mod region;

pub use memory::PoolNoMemory;
pub use pieces::Pieces;
pub use pool::{Chain, Pool, Short};
pub use region::blocks;
