// What clauses see of the forms in memory and of the adapters: plain data. No value of these types is made.
use std::collections::LinkedList;

/// Which calls fail: their numbers, and the number of the next call, both counted from 0. No listed number
/// is 2^64 or more, so the number of the next call stands still there.
pub struct FailuresData {
    pub numbers: LinkedList<u64>,
    pub next: u128,
}

/// A `MemorySource` as clauses see it: the bytes that are left, those that were left and whether it had ended as the
/// last read began, and the bounds of the next reads.
pub struct SourceData {
    pub left: LinkedList<u8>,
    pub left_before: LinkedList<u8>,
    pub pieces: LinkedList<u32>,
    pub failures: FailuresData,
    pub ended: bool,
    pub ended_before: bool,
    pub faults: u64,
}

/// A `MemorySink` as clauses see it: the bytes that it holds, how many more it takes, what it held and how often it had
/// failed as its last write began, and how many bytes that was to write.
pub struct SinkData {
    pub held: LinkedList<u8>,
    pub held_before: LinkedList<u8>,
    pub spare: u64,
    pub failures: FailuresData,
    pub faults: u64,
    pub faults_before: u64,
    pub offered: u64,
}

/// A `MemoryClock` as clauses see it: the moments to come, of which the last is repeated.
pub struct ClockData {
    pub moments: LinkedList<u64>,
}

/// A `ReaderSource` as clauses see it.
pub struct ReaderData<R> {
    pub reader: R,
    pub ended: bool,
    pub ended_before: bool,
    pub faults: u64,
}

/// A `WriterSink` as clauses see it.
pub struct WriterData<W> {
    pub writer: W,
    pub faults: u64,
    pub faults_before: u64,
    pub offered: u64,
}

/// A `SystemClock` as clauses see it: the last moment that it gave.
pub struct SystemClockData {
    pub last: u64,
}
