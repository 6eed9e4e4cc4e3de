//! The outside of the program as traits: where bytes come from, where they go, what time it is, and what calls pass on their
//! way. Beside the first three stands a form in memory, which tells its bytes or moments, and an adapter over the real thing.
#![tactic(auto)]

mod clock;
mod data;
mod failures;
mod gate;
mod memory_clock;
mod memory_sink;
mod memory_source;
mod sink;
mod source;
mod standard;
#[cfg(test)]
mod tests;

pub use clock::Clock;
pub use data::{
    ClockData, FailuresData, ReaderData, SinkData, SourceData, SystemClockData, WriterData,
};
pub use gate::{Gate, OpenGate, Point};
pub use memory_clock::MemoryClock;
pub use memory_sink::MemorySink;
pub use memory_source::MemorySource;
pub use sink::{Put, Sink};
pub use source::{Got, Source};
pub use standard::{ReaderSource, SystemClock, WriterSink};
