// What clauses see of a world: plain data. No value of these types is made.
use crate::Place;
use ep_model::{Config, EventData, StartData};
use std::collections::LinkedList;

/// A vBucket as clauses see it: its start, once that is put, and where its parts are: the stripes in order, the
/// queue and the desk.
pub struct BucketData<P> {
    pub start: Option<StartData>,
    pub places: LinkedList<Place<P>>,
}

/// A world as clauses see it: its layout, what happened in order, each event with its vBucket, the vBuckets, and
/// how often a part was taken by somebody else. Its history takes `event_room` more events with `byte_room` more
/// bytes of keys and values, and does not grow for them.
pub struct WorldData<P> {
    pub config: Config,
    pub history: LinkedList<(u16, EventData)>,
    pub buckets: LinkedList<BucketData<P>>,
    pub losses: u64,
    pub event_room: u64,
    pub byte_room: u64,
}

/// What no call at a stage of the vBucket `vb` changes: the layout, the vBuckets before and behind it, and the events
/// of these.
pub struct FixedData<P> {
    pub vb: u16,
    pub config: Config,
    pub before: LinkedList<BucketData<P>>,
    pub behind: LinkedList<BucketData<P>>,
    pub elsewhere: LinkedList<(u16, EventData)>,
}
