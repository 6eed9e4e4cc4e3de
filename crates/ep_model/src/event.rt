// What happens to a vBucket, one event at a time.
use crate::status::{OUT_OF_MEMORY, TEMPORARY_FAILURE};
use crate::{Call, Reply};

/// A place in which a stripe waits for its store: the stripe and a number that rises there.
#[derive(Clone, Copy, Debug, PartialEq, Eq)]
pub struct Ticket {
    pub stripe: u16,
    pub number: u64,
}

/// Why a call was refused for now.
#[derive(Clone, Copy, Debug, PartialEq, Eq)]
pub enum Cause {
    /// What isn't stored yet takes too many blocks.
    Quota,
    /// The vBucket hasn't opened.
    Warming,
    /// The store failed at this ticket's read.
    Store(Ticket),
    /// Memory was wanting at this ticket's read.
    Memory(Ticket),
}

impl Cause {
    ghost use Rattle.std.specs.Prelude.{◌≡◌};
    ghost use Rattle.ep_model.specs.Statuses.{status_of};

    /// The status that answers the refused call: that memory is wanting, or else that it is refused for now.
    pub fn status(self) -> u16
        ensures { result ≡ status_of self }
    {
        match self {
            Cause::Memory(_) => OUT_OF_MEMORY,
            Cause::Quota | Cause::Warming | Cause::Store(_) => TEMPORARY_FAILURE,
        }
    }
}

/// An event of one vBucket's history. Moments are nanoseconds since 1970.
#[derive(Clone, Copy)]
pub enum Event<'a> {
    /// A caller's call was answered. `value` is the value of the answer.
    Called {
        caller: u64,
        call: Call<'a>,
        now: u64,
        reply: Reply,
        value: &'a [u8],
    },
    Refused {
        caller: u64,
        call: Call<'a>,
        now: u64,
        cause: Cause,
    },
    /// An expired document was replaced by a tombstone.
    Expired {
        key: &'a [u8],
        now: u64,
    },
    /// The store holds all mutations up to this number.
    Persisted {
        number: u64,
    },
    /// A stripe knows that the store holds all mutations up to this number.
    Marked {
        stripe: u16,
        number: u64,
    },
    /// A call waits for the store.
    Asked {
        ticket: Ticket,
        caller: u64,
        call: Call<'a>,
    },
    /// The store failed at the ticket's read, its count of faults then being `fault`.
    ReadFailed {
        ticket: Ticket,
        fault: u64,
    },
    /// From here on calls are answered.
    Opened,
}

/// A part of a vBucket that is taken and given as one.
#[derive(Clone, Copy, Debug, PartialEq, Eq)]
pub enum PartName {
    Stripe(u16),
    Queue,
    Desk,
}

/// The part is taken by somebody else.
#[derive(Clone, Copy, Debug, PartialEq, Eq)]
pub struct Busy {
    pub part: PartName,
}

/// How far a vBucket's warmup is, after kv_engine's phases.
#[derive(Clone, Copy, Debug, PartialEq, Eq, PartialOrd, Ord)]
pub enum Phase {
    Initialise,
    CreateVBuckets,
    EstimateItems,
    KeyDump,
    CheckAccessLog,
    LoadAccessLog,
    LoadData,
    Done,
}
