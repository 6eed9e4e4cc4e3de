//! The model of a vBucket: the types that the crates share, the buffer that answers go into, and in
//! `specs/` the definitions of a vBucket's world, of the answer to a call and of a legal history.
#![tactic(auto)]

mod bytes;
mod call;
mod config;
mod data;
pub mod decimal;
mod document;
mod event;
pub mod laws;
pub mod limits;
mod memory;
mod out;
mod plain;
pub mod rules;
pub mod status;
mod stripes;

pub use bytes::{Bytes, Text};
pub use call::{Call, Meta, Reply, StoreKind, VbState};
pub use config::{Config, Eviction, Field, OpenFault};
pub use data::{
    CallData, CheckpointData, CheckpointsData, DocData, EventData, FrontData, OutData, StartData,
};
pub use event::{Busy, Cause, Event, PartName, Phase, Ticket};
pub use memory::NoMemory;
pub use out::Out;
pub use plain::Plain;
pub use stripes::stripe_of;

#[cfg(test)]
mod tests;
