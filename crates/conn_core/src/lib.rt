//! A connection: its features, its buffers, and the answers that it gives by itself.
#![tactic(auto)]

mod act;
mod conn;
mod hello;

pub use act::{Act, ActData};
pub use conn::{Conn, OUT_ROOM};
pub use hello::{Features, asks_seqno};

#[cfg(test)]
mod tests;
