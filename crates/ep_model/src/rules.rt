//! The rules on numbers: moments, expiries, CAS values, sequence numbers and blocks.
ghost use Rattle.std.specs.Prelude.{◌≡◌, ◌+◌, ◌<◌, ◌^◌, length};
ghost use Rattle.ep_model.specs.World.{secs, is_live, stamp, stored_expiry, blocks, blank_doc, empty_world};
ghost use Rattle.ep_model.specs.Refusals.{state_refusal, size_refusal, join_refusal, cas_refusal, wanted_refusal, store_refusal, new_count_refusal, number_refusal};
ghost use Rattle.ep_model.specs.Answer.{counted};
ghost use Rattle.ep_model.specs.History.{call_data};
ghost use Rattle.ep_model.specs.Needs.{needs, own_refusal};

use crate::limits::MAX_VALUE;
use crate::status::{KEY_EXISTS, KEY_NOT_FOUND, NOT_MY_VBUCKET, OUT_OF_RANGE, TOO_LARGE};
use crate::{Call, Eviction, StoreKind, VbState};

/// The greatest sequence number of a vBucket.
pub const LAST_SEQNO: u64 = 0xffff_ffff_ffff;

/// The greatest expiration that counts from now, in seconds: 30 days.
pub const MAX_RELATIVE: u32 = 2_592_000;

/// The length of a block in bytes.
pub const BLOCK: usize = 128;

/// The whole seconds since 1970 of a moment in nanoseconds.
pub fn seconds(now: u64) -> u64
    ensures { result ≡ secs now }
{
    now / 1_000_000_000
}

/// Whether a document with this mark and this expiry is live at a moment in nanoseconds.
pub fn is_live(deleted: bool, expiry: u32, now: u64) -> bool
    ensures { result ≡ is_live (record blank_doc { expiry = expiry; deleted = deleted }) now }
{
    !deleted && (expiry == 0 || seconds(now) < u64::from(expiry))
}

/// The CAS of the next mutation: the moment, in nanoseconds since 1970, without its low 16 bits, or one more
/// than the greatest CAS so far where that is greater.
pub fn stamp(maxcas: u64, now: u64) -> u64
    requires { maxcas + 1 < 2 ^ 64 }
    ensures { result ≡ stamp (record (empty_world 0 0) { maxcas = maxcas }) now }
{
    (maxcas + 1).max(now - now % 65_536)
}

/// The expiry, in seconds since 1970, that is stored for a request's expiration. What would be past the
/// greatest number is the greatest number.
pub fn stored_expiry(expiration: u32, now: u64) -> u32
    ensures { result ≡ stored_expiry expiration now }
{
    if expiration == 0 {
        0
    } else if expiration <= MAX_RELATIVE {
        (seconds(now) + u64::from(expiration)).min(u64::from(u32::MAX)) as u32
    } else {
        expiration
    }
}

/// How many blocks this many bytes take.
pub fn blocks(len: usize) -> usize
    requires { len + 127 < 2 ^ 64 }
    ensures { result ≡ blocks len }
{
    (len + (BLOCK - 1)) / BLOCK
}

/// The status by which a request's CAS is refused beside that of the live document, if it is refused. A CAS
/// of 0 asks for no comparison.
pub fn cas_refusal(cas: u64, current: Option<u64>) -> Option<u16>
    ensures { result ≡ cas_refusal cas current }
{
    match current {
        _ if cas == 0 => None,
        None => Some(KEY_NOT_FOUND),
        Some(current) if cas == current => None,
        Some(_) => Some(KEY_EXISTS),
    }
}

/// The status by which a call is refused in a state, if it is. A call with a key wants an active vBucket.
pub fn state_refusal(state: VbState, keyed: bool) -> Option<u16>
    ensures { result ≡ state_refusal state keyed }
{
    match state {
        VbState::Active => None,
        VbState::Replica | VbState::Pending | VbState::Dead if keyed => Some(NOT_MY_VBUCKET),
        VbState::Replica | VbState::Pending | VbState::Dead => None,
    }
}

/// The status by which a document whose key and value have these lengths is refused, if it takes more than
/// `fit` blocks.
pub fn size_refusal(fit: u32, key_len: usize, value_len: usize) -> Option<u16>
    requires key { key_len < 2 ^ 63 }
    requires value { value_len < 2 ^ 63 }
    ensures { result ≡ size_refusal fit key_len value_len }
{
    if blocks(key_len) + blocks(value_len) > fit as usize {
        Some(TOO_LARGE)
    } else {
        None
    }
}

/// The same for a joined value, which may be too long besides.
pub fn join_refusal(fit: u32, key_len: usize, value_len: usize) -> Option<u16>
    requires key { key_len < 2 ^ 63 }
    requires value { value_len < 2 ^ 63 }
    ensures { result ≡ join_refusal fit key_len value_len }
{
    if value_len > MAX_VALUE {
        Some(TOO_LARGE)
    } else {
        size_refusal(fit, key_len, value_len)
    }
}

/// The same as `cas_refusal` for a call that wants a live document.
pub fn wanted_refusal(cas: u64, current: Option<u64>) -> Option<u16>
    ensures { result ≡ wanted_refusal cas current }
{
    match current {
        None => Some(KEY_NOT_FOUND),
        Some(_) => cas_refusal(cas, current),
    }
}

/// The status by which a Set, Add or Replace is refused beside the CAS of the live document, if it is. An Add
/// wants none and doesn't read its CAS, a Replace wants one.
pub fn store_refusal(kind: StoreKind, cas: u64, current: Option<u64>) -> Option<u16>
    ensures { result ≡ store_refusal kind cas current }
{
    match (kind, current) {
        (StoreKind::Set, _) => cas_refusal(cas, current),
        (StoreKind::Add, None) => None,
        (StoreKind::Add, Some(_)) => Some(KEY_EXISTS),
        (StoreKind::Replace, _) => wanted_refusal(cas, current),
    }
}

/// The status by which a counter that isn't there is refused, if it is: it is made without a CAS alone, and
/// not under the expiration 0xffffffff.
pub fn new_count_refusal(cas: u64, expiration: u32) -> Option<u16>
    ensures { result ≡ new_count_refusal cas expiration }
{
    if cas != 0 || expiration == u32::MAX {
        Some(KEY_NOT_FOUND)
    } else {
        None
    }
}

/// The status by which any effect on a document is refused, if the sequence numbers have run out.
pub fn number_refusal(high: u64) -> Option<u16>
    ensures { result ≡ number_refusal high }
{
    if high == LAST_SEQNO {
        Some(OUT_OF_RANGE)
    } else {
        None
    }
}

/// A counter's new number. Increment wraps at 2^64, and Decrement stops at 0.
pub fn counted(down: bool, number: u64, delta: u64) -> u64
    ensures { result ≡ counted down number delta }
{
    if down {
        number.saturating_sub(delta)
    } else {
        number.wrapping_add(delta)
    }
}

/// Whether a call needs the old document of its key, beyond what value eviction leaves of it in memory.
pub fn needs(eviction: Eviction, call: &Call) -> bool
    ensures { result ≡ needs eviction (call_data call.now) }
{
    match *call {
        Call::Get { .. } | Call::Join { .. } | Call::Count { .. } | Call::Touch { .. } => true,
        Call::Store { kind, cas, .. } => match eviction {
            Eviction::Value => false,
            Eviction::Full => match kind {
                StoreKind::Set => cas != 0,
                StoreKind::Add | StoreKind::Replace => true,
            },
        },
        Call::Delete { .. } => match eviction {
            Eviction::Value => false,
            Eviction::Full => true,
        },
        Call::Observe { .. } | Call::Failovers | Call::SetState { .. } | Call::GetState => false,
    }
}

/// The status by which a document of this key and this value is refused, if it takes more than `fit` blocks.
pub fn text_refusal(fit: u32, key: &[u8], value: &[u8]) -> Option<u16>
    ensures { result ≡ size_refusal fit (length key.now) (length value.now) }
{
    size_refusal(fit, key.len(), value.len())
}

/// The status by which a call is refused whatever the old document of its key is, if it is: what it is to store takes more than
/// `fit` blocks.
pub fn own_refusal(fit: u32, call: &Call) -> Option<u16>
    ensures { result ≡ own_refusal fit (call_data call.now) }
{
    match *call {
        Call::Store { key, value, .. } => text_refusal(fit, key, value),
        Call::Get { .. }
        | Call::Join { .. }
        | Call::Count { .. }
        | Call::Delete { .. }
        | Call::Touch { .. }
        | Call::Observe { .. }
        | Call::Failovers
        | Call::SetState { .. }
        | Call::GetState => None,
    }
}
