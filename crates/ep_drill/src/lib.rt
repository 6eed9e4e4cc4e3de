//! The core of a bucket: every list of steps over it, in one thread. So far its parts are the plainest ones, flat
//! lists.
#![tactic(auto)]

mod bench;
mod choice;
mod data;
mod engine;
mod fetch;
mod fetched;
mod hold;
mod mark;
mod open;
mod owned;
mod part;
mod start;
mod store;
mod stored;
mod tried;
mod turn;
mod worked;

pub use bench::Bench;
pub use choice::{Answer, StepChoice, Tried};
pub use data::{BenchData, CallerData, CoreData, FetchedData, FoundData};
pub use engine::{Core, run_steps};
pub use fetch::Merging;
pub use mark::Marking;
pub use owned::{Caller, Loaded, OwnedCall, OwnedKey, OwnedSet};
pub use part::{DeskPart, Part};
pub use store::{Flushed, Paged};

#[cfg(test)]
mod tests;
