// What clauses see of a call, of an event and of a buffer: plain data, in which bytes are lists and nothing
// has an address. No value of these types is made.
use crate::{Cause, Config, Reply, StoreKind, Ticket, VbState};
use std::collections::LinkedList;

/// A `Call` as clauses see it.
pub enum CallData {
    Get {
        key: LinkedList<u8>,
    },
    Store {
        kind: StoreKind,
        key: LinkedList<u8>,
        value: LinkedList<u8>,
        flags: u32,
        expiration: u32,
        cas: u64,
    },
    Join {
        front: bool,
        key: LinkedList<u8>,
        value: LinkedList<u8>,
        cas: u64,
    },
    Count {
        down: bool,
        key: LinkedList<u8>,
        delta: u64,
        initial: u64,
        expiration: u32,
        cas: u64,
    },
    Delete {
        key: LinkedList<u8>,
        cas: u64,
    },
    Touch {
        key: LinkedList<u8>,
        expiration: u32,
        fetch: bool,
    },
    Observe {
        uuid: u64,
    },
    Failovers,
    SetState {
        state: VbState,
    },
    GetState,
}

/// An `Event` as clauses see it.
pub enum EventData {
    Called {
        caller: u64,
        call: CallData,
        now: u64,
        reply: Reply,
        value: LinkedList<u8>,
    },
    Refused {
        caller: u64,
        call: CallData,
        now: u64,
        cause: Cause,
    },
    Expired {
        key: LinkedList<u8>,
        now: u64,
    },
    Persisted {
        number: u64,
    },
    Marked {
        stripe: u16,
        number: u64,
    },
    Asked {
        ticket: Ticket,
        caller: u64,
        call: CallData,
    },
    ReadFailed {
        ticket: Ticket,
        fault: u64,
    },
    Opened,
}

/// An `Out` as clauses see it: its bytes, and how many more it takes.
pub struct OutData {
    pub bytes: LinkedList<u8>,
    pub spare: u64,
}

/// A document as clauses see it, or where it was deleted what is left of it.
pub struct DocData {
    pub value: LinkedList<u8>,
    pub flags: u32,
    pub expiry: u32,
    pub cas: u64,
    pub seqno: u64,
    pub deleted: bool,
}

/// What a vBucket's history begins with: its documents under their keys, its greatest numbers, and its
/// failover table, pairs of a uuid and a sequence number, newest first. All of it is stored. It is `told` where
/// the store tells its content: else nothing is known of the documents.
pub struct StartData {
    pub told: bool,
    pub docs: LinkedList<(LinkedList<u8>, DocData)>,
    pub high: u64,
    pub maxcas: u64,
    pub failovers: LinkedList<(u64, u64)>,
}

/// What is known of the history of the vBucket `id` of a bucket: a front of it, with its start once that is
/// put.
pub struct FrontData {
    pub config: Config,
    pub id: u16,
    pub start: Option<StartData>,
    pub events: LinkedList<EventData>,
}

/// A checkpoint of a vBucket: documents under different keys, in the order in which they were put.
pub struct CheckpointData {
    pub id: u64,
    pub items: LinkedList<(LinkedList<u8>, DocData)>,
}

/// The checkpoints of a vBucket: the closed ones, the oldest first, and the one into which mutations go.
pub struct CheckpointsData {
    pub closed: LinkedList<CheckpointData>,
    pub last: CheckpointData,
}
