// The calls of a client on one vBucket, and what answers them.
use crate::status::SUCCESS;

/// A vBucket's state. The numbers are those of the memcached binary protocol as kv_engine extends it.
#[derive(Clone, Copy, Debug, PartialEq, Eq)]
pub enum VbState {
    Active,
    Replica,
    Pending,
    Dead,
}

/// Which keys a store may write: any, only a missing one, or only one that is there.
#[derive(Clone, Copy, Debug, PartialEq, Eq)]
pub enum StoreKind {
    Set,
    Add,
    Replace,
}

/// A call on one vBucket. A key has 1 to 250 bytes and a value at most 1,048,576. An expiration is that of
/// the request: 0 for none, up to 2,592,000 seconds from now, above that seconds since 1970. A `cas` of 0
/// asks for no comparison.
#[derive(Clone, Copy)]
pub enum Call<'a> {
    Get {
        key: &'a [u8],
    },
    /// Set, Add or Replace.
    Store {
        kind: StoreKind,
        key: &'a [u8],
        value: &'a [u8],
        flags: u32,
        expiration: u32,
        cas: u64,
    },
    /// Prepend where `front` is true, else Append.
    Join {
        front: bool,
        key: &'a [u8],
        value: &'a [u8],
        cas: u64,
    },
    /// Decrement where `down` is true, else Increment.
    Count {
        down: bool,
        key: &'a [u8],
        delta: u64,
        initial: u64,
        expiration: u32,
        cas: u64,
    },
    Delete {
        key: &'a [u8],
        cas: u64,
    },
    /// Get-and-touch where `fetch` is true, else Touch.
    Touch {
        key: &'a [u8],
        expiration: u32,
        fetch: bool,
    },
    /// The persisted and the current sequence number, asked under the newest entry's uuid.
    Observe {
        uuid: u64,
    },
    /// The failover table.
    Failovers,
    SetState {
        state: VbState,
    },
    GetState,
}

/// What a call is answered, apart from a value's bytes. `status` is a status of the memcached binary
/// protocol. A field that the call and the status don't name is 0.
#[derive(Clone, Copy, Debug, PartialEq, Eq)]
pub struct Reply {
    pub status: u16,
    pub cas: u64,
    pub flags: u32,
    pub uuid: u64,
    pub seqno: u64,
}

/// A document without its key and value. `expiry` is 0 or seconds since 1970, and `len` the value's length.
#[derive(Clone, Copy, Debug, PartialEq, Eq)]
pub struct Meta {
    pub flags: u32,
    pub expiry: u32,
    pub cas: u64,
    pub seqno: u64,
    pub deleted: bool,
    pub len: u32,
}

impl Reply {
    ghost use Rattle.std.specs.Prelude.{◌≡◌};
    ghost use Rattle.ep_model.specs.Answer.{bare_reply};
    ghost use Rattle.ep_model.specs.Statuses.{success};

    /// A status alone.
    pub fn refusal(status: u16) -> Reply
        ensures { result ≡ bare_reply status }
    {
        Reply {
            status,
            cas: 0,
            flags: 0,
            uuid: 0,
            seqno: 0,
        }
    }
    /// Success alone.
    pub fn success() -> Reply
        ensures { result ≡ bare_reply success }
    {
        Reply::refusal(SUCCESS)
    }
}

impl VbState {
    ghost use Rattle.std.specs.Prelude.{◌≡◌};
    ghost use Rattle.ep_model.specs.Answer.{state_code};

    /// The state's number in the protocol, 1 to 4.
    pub fn code(self) -> u32
        ensures { result ≡ state_code self }
    {
        match self {
            VbState::Active => 1,
            VbState::Replica => 2,
            VbState::Pending => 3,
            VbState::Dead => 4,
        }
    }
}

impl Call<'_> {
    ghost use Rattle.std.specs.Prelude.{◌≡◌};
    ghost use Rattle.ep_model.specs.Calls.{has_key};
    ghost use Rattle.ep_model.specs.History.{call_data};

    /// Whether the call is on a key, and not on the vBucket as a whole.
    pub fn has_key(&self) -> bool
        ensures { result ≡ has_key (call_data self.now) }
    {
        match self {
            Call::Get { .. }
            | Call::Store { .. }
            | Call::Join { .. }
            | Call::Count { .. }
            | Call::Delete { .. }
            | Call::Touch { .. } => true,
            Call::Observe { .. } | Call::Failovers | Call::SetState { .. } | Call::GetState => {
                false
            }
        }
    }
}
