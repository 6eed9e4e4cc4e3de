// Calls that are kept until they are tried.
ghost use Rattle.ep_model.specs.Limits.{IsKey, IsValue};

use ep_model::Ticket;

/// A key of its own.
#[derive(Drop)]
pub struct OwnedKey {
    pub bytes: Vec<u8>,
    ghost is_key: { IsKey bytes.items },
}

/// A Set of its own.
#[derive(Drop)]
pub struct OwnedSet {
    pub key: OwnedKey,
    pub value: Vec<u8>,
    pub flags: u32,
    pub expiration: u32,
    pub cas: u64,
    ghost fits: { IsValue value.items },
}

/// A call of its own.
#[derive(Drop)]
pub enum OwnedCall {
    Get(OwnedKey),
    Set(OwnedSet),
}

/// A call on a vBucket.
#[derive(Drop)]
pub struct Loaded {
    pub vb: u16,
    pub call: OwnedCall,
}

/// A caller's calls in their order, how many of them are answered, and the ticket at which the next one waits.
#[derive(Drop)]
pub struct Caller {
    pub calls: Vec<Loaded>,
    pub answered: usize,
    pub prior: Option<Ticket>,
}
