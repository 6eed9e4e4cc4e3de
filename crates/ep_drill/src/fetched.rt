// A read of the store that isn't merged yet.
ghost use Rattle.std.specs.Prelude.{◌≡◌, length};
ghost use Rattle.ep_model.specs.Limits.{IsValue};

use ep_model::{Meta, Ticket};

/// A document that the store has: its metadata and its value.
#[derive(Drop)]
pub struct FoundRow {
    pub meta: Meta,
    pub value: Vec<u8>,
    ghost measured: { meta.len ≡ length value.items },
    ghost fits: { IsValue value.items },
}

/// What a read of the store found.
#[derive(Drop)]
pub enum ReadFound {
    Row(FoundRow),
    Absent,
    /// The store failed, the desk's count of read faults then being this one.
    Failed(u64),
    NoMemory,
}

/// What was read for the calls that wait at a ticket.
#[derive(Drop)]
pub struct Fetched {
    pub ticket: Ticket,
    pub key: Vec<u8>,
    pub found: ReadFound,
}
