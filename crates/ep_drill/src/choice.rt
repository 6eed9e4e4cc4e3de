// The steps that a core can make, and what they answer.
use crate::fetch::Merging;
use crate::mark::Marking;
use crate::store::{Flushed, Paged};
use ep_model::{Reply, Ticket};

/// A step of a core. A vBucket, a stripe and a caller are named by their numbers, counted from 0, and moments are
/// nanoseconds since 1970.
#[derive(Clone, Copy, Debug, PartialEq, Eq)]
pub enum StepChoice {
    /// One step of warmup. So far a vBucket is opened as it is made, and this does nothing.
    Warm { vb: u16 },
    /// Tries a caller's first call that isn't answered.
    Front { caller: u16, now: u64 },
    /// Copies what isn't stored yet.
    TakeBatch { vb: u16 },
    /// Commits what was copied.
    Commit { vb: u16 },
    /// Tells a stripe what is stored.
    Mark { vb: u16, stripe: u16 },
    /// Reads a value that a call waits for.
    Read { vb: u16, stripe: u16 },
    /// Hands what was read to whoever waits for it.
    Merge { vb: u16, stripe: u16 },
    /// Ejects values.
    Page { vb: u16, stripe: u16 },
    /// Turns expired documents into tombstones. So far this does nothing.
    Expire { vb: u16, stripe: u16, now: u64 },
}

/// How far a call has come.
#[derive(Clone, Copy, Debug, PartialEq, Eq)]
pub enum Tried {
    /// It was answered, or refused for now: by status 0x86, or 0x82 for want of memory.
    Done(Reply),
    /// It waits for the store at this ticket.
    Fetch(Ticket),
    /// It needs the store, for which too many calls of its stripe wait.
    FetchFull,
}

/// What a step answers.
#[derive(Clone, Copy, Debug, PartialEq, Eq)]
pub enum Answer {
    /// There is nothing to do for it, and nothing changed.
    Nothing,
    Tried(Tried),
    /// So many documents were copied: none where all is stored.
    Took(u32),
    Flushed(Flushed),
    Marked(Marking),
    /// Whether a value was read.
    Read(bool),
    Merged(Merging),
    Paged(Paged),
}
