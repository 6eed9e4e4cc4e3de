//! Limits that hold for every bucket.

/// The greatest length of a key in bytes. The least is 1.
pub const MAX_KEY: usize = 250;

/// The greatest length of a value in bytes.
pub const MAX_VALUE: usize = 1_048_576;

/// The room of a value with its key.
pub const VALUE_ROOM: usize = MAX_VALUE + MAX_KEY;

/// The greatest number of bytes in an event: those of a key and of one value, which a call has or is answered.
pub const EVENT_BYTES: usize = VALUE_ROOM;

/// The first number of nanoseconds since 1970 that is no moment any more.
pub const END_OF_MOMENTS: u64 = 1 << 62;
