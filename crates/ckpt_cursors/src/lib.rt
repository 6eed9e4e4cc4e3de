//! Named positions in a vBucket's checkpoints.
#![tactic(auto)]

mod cursors;

pub use cursors::{CursorFault, Cursors, MAX_CURSORS};
