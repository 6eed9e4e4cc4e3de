// What clauses see of a core: plain data. No value of these types is made.
use crate::part::Part;
use ep_model::{CallData, Config, DocData, Ticket};
use kv_keeper::{BatchData, DeskData};
use std::collections::LinkedList;
use vb_world::WorldData;

/// The desk over a vBucket's store, the batch that was taken and isn't committed, and for each stripe the read that
/// was made and isn't merged.
pub struct BenchData {
    pub desk: DeskData,
    pub batch: Option<BatchData>,
    pub reads: LinkedList<Option<FetchedData>>,
}

/// A caller's calls in their order, each with its vBucket, how many of them are answered, and the ticket at which the
/// next one waits.
pub struct CallerData {
    pub calls: LinkedList<(u16, CallData)>,
    pub answered: u64,
    pub prior: Option<Ticket>,
}

/// A core: its layout, its vBuckets with their histories, what their stores are worked on with, and its callers.
pub struct CoreData {
    pub config: Config,
    pub world: WorldData<Part>,
    pub benches: LinkedList<BenchData>,
    pub callers: LinkedList<CallerData>,
}

/// What a read of the store found.
pub enum FoundData {
    Row(DocData),
    Absent,
    /// The store failed, the desk's count of read faults then being this one.
    Failed(u64),
    NoMemory,
}

/// A read that was made and isn't merged yet.
pub struct FetchedData {
    pub ticket: Ticket,
    pub key: LinkedList<u8>,
    pub found: FoundData,
}
