// Want of memory at a pool's opening.
use std::alloc::{AllocError, AllocFailed};

/// Memory for a pool's region was wanting.
#[derive(Clone, Copy, Debug, PartialEq, Eq)]
pub struct PoolNoMemory;

impl From<AllocError> for PoolNoMemory {
    fn from(_: AllocError) -> Self {
        PoolNoMemory
    }
}

impl<T: Drop> From<AllocFailed<T>> for PoolNoMemory {
    fn from(_: AllocFailed<T>) -> Self {
        PoolNoMemory
    }
}
