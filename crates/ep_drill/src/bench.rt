// What a vBucket's store is worked on with.
use crate::fetched::Fetched;
use kv_keeper::{Batch, Desk, Keeper};

/// The desk over a vBucket's store, the batch that was taken and isn't committed, and for each stripe the read that
/// was made and isn't merged.
#[derive(Drop)]
pub struct Bench<K: Keeper> {
    pub desk: Desk<K>,
    pub batch: Option<Batch>,
    pub reads: Vec<Option<Fetched>>,
}
