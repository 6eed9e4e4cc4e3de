// What clauses see of the parts: plain data, in which bytes are lists. No value of these types is made, but for
// `Outcome` and `Step`.
use ep_model::{Cause, DocData, Meta, Reply, Ticket, VbState};
use std::collections::LinkedList;

/// What became of a read that somebody asked for.
#[derive(Clone, Copy, Debug, PartialEq, Eq)]
pub enum Outcome {
    Waiting,
    /// The value is in memory again.
    Merged,
    /// The store had no live document.
    Absent,
    /// The store failed, its count of faults then being this one.
    Failed(u64),
    /// Memory was wanting.
    NoMemory,
}

/// What a call on parts came to.
#[derive(Clone, Copy, Debug, PartialEq, Eq)]
pub enum Step {
    Done(Reply),
    Refused(Cause),
    /// The call waits for the store.
    Fetch(Ticket),
    /// No more calls can wait.
    FetchFull,
}

/// What memory has of a document: its metadata, and its value where that is resident.
pub struct NodeData {
    pub key: LinkedList<u8>,
    pub meta: Meta,
    pub value: Option<LinkedList<u8>>,
}

/// A read that was asked for, by the number of its ticket.
pub struct PlaceData {
    pub number: u64,
    pub key: LinkedList<u8>,
    pub outcome: Outcome,
}

/// A stripe: its nodes, up to which number mutations are known to be stored, the reads asked for, in order, and
/// the number of the next ticket.
pub struct StripeData {
    pub index: u16,
    pub nodes: LinkedList<NodeData>,
    pub mark: u64,
    pub state: VbState,
    pub opened: bool,
    pub places: LinkedList<PlaceData>,
    pub next: u64,
}

/// A queue: the mutations that aren't persisted, in order, and the vBucket's numbers. `uuid` is the newest of its
/// failover table, or 0.
pub struct QueueData {
    pub items: LinkedList<(LinkedList<u8>, DocData)>,
    pub high: u64,
    pub maxcas: u64,
    pub persisted: u64,
    pub state: VbState,
    pub opened: bool,
    pub uuid: u64,
}

/// What a Get leaves: what it came to, the value of its answer, and the stripe.
pub struct ReadData {
    pub step: Step,
    pub value: LinkedList<u8>,
    pub stripe: StripeData,
}

/// What a Set leaves: what it came to, the stripe and the queue.
pub struct WriteData {
    pub step: Step,
    pub stripe: StripeData,
    pub queue: QueueData,
}

/// What a pager's look at a stripe leaves: the blocks that are left, how many values were ejected, and the stripe.
pub struct PageData {
    pub used: u64,
    pub ejected: u64,
    pub stripe: StripeData,
}
