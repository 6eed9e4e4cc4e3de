// Events of many vBuckets in one log: what they say in order, and behind one another their bytes.
ghost use Rattle.std.specs.Prelude.{◌≡◌, ◌⊎◌, ◌∷◌, [], ◌++◌, ◌+◌, ◌<◌, ◌≤◌, length, vec_len, vec_capacity, IsOk, IfOk, OnOk, OnErr, slice_get, Some};
ghost use Rattle.ep_model.specs.History.{call_data, event_data};
ghost use Rattle.hold_stage.specs.Touches.{bytes_of_call, bytes_of};
ghost use Rattle.vb_world.specs.EventLog.{Extends, KeepsCall, call_in, event_in, spanned, IsInside, IsCallInside, IsEventInside, pairs_of, HasAllBytes, event_room, byte_room};

use ep_model::{Call, Cause, Event, NoMemory, Reply, StoreKind, Ticket, VbState};
use std::alloc::AllocError;

// Where a run of bytes lies.
#[derive(Clone, Copy)]
pub struct Span {
    pub from: usize,
    pub len: usize,
}

// A call whose bytes lie in a log beside it.
#[derive(Clone, Copy)]
pub enum KeptCall {
    Get {
        key: Span,
    },
    Store {
        kind: StoreKind,
        key: Span,
        value: Span,
        flags: u32,
        expiration: u32,
        cas: u64,
    },
    Join {
        front: bool,
        key: Span,
        value: Span,
        cas: u64,
    },
    Count {
        down: bool,
        key: Span,
        delta: u64,
        initial: u64,
        expiration: u32,
        cas: u64,
    },
    Delete {
        key: Span,
        cas: u64,
    },
    Touch {
        key: Span,
        expiration: u32,
        fetch: bool,
    },
    Observe {
        uuid: u64,
    },
    Failovers,
    SetState {
        state: VbState,
    },
    GetState,
}

// An event whose bytes lie in a log beside it.
#[derive(Clone, Copy)]
pub enum KeptEvent {
    Called {
        caller: u64,
        call: KeptCall,
        now: u64,
        reply: Reply,
        value: Span,
    },
    Refused {
        caller: u64,
        call: KeptCall,
        now: u64,
        cause: Cause,
    },
    Expired {
        key: Span,
        now: u64,
    },
    Persisted {
        number: u64,
    },
    Marked {
        stripe: u16,
        number: u64,
    },
    Asked {
        ticket: Ticket,
        caller: u64,
        call: KeptCall,
    },
    ReadFailed {
        ticket: Ticket,
        fault: u64,
    },
    Opened,
}

// Events in order, each with its vBucket, and the bytes of all of them.
#[derive(Drop)]
pub struct EventLog {
    pub events: Vec<(u16, KeptEvent)>,
    pub bytes: Vec<u8>,
}

// Puts bytes behind those that are kept.
fn keep(bytes: &mut Vec<u8>, piece: &[u8]) -> Result<Span, AllocError>
    ensures kept { IfOk result (λ span. (bytes.new.items ≡ bytes.old.items ++ piece.now)
        × (span ≡ record { from = length bytes.old.items; len = length piece.now })) }
    ensures err { OnErr result (bytes.new.items ≡ bytes.old.items) }
    ensures room { vec_len bytes.old + length piece.now ≤ vec_capacity bytes.old → IsOk result }
    ensures growth { vec_len bytes.new ≤ vec_len bytes.old + length piece.now }
    ensures capacity { vec_capacity bytes.old ≤ vec_capacity bytes.new }
{
    let from = bytes.len();
    bytes.extend_from_slice(piece)?;
    Ok(Span {
        from,
        len: piece.len(),
    })
}

// Puts the bytes of two pieces behind those that are kept.
fn keep_two(bytes: &mut Vec<u8>, key: &[u8], value: &[u8]) -> Result<(Span, Span), AllocError>
    ensures kept { IfOk result (λ spans. (bytes.new.items ≡ (bytes.old.items ++ key.now)
        ++ value.now)
        × (spans.0 ≡ record { from = length bytes.old.items; len = length key.now })
        × (spans.1 ≡ record {
          from = length bytes.old.items + length key.now;
          len = length value.now;
        })) }
    ensures err { OnErr result (Extends bytes.old.items bytes.new.items) }
    ensures room { vec_len bytes.old + (length key.now + length value.now) ≤ vec_capacity bytes.old
        → IsOk result }
    ensures growth { vec_len bytes.new ≤ vec_len bytes.old + (length key.now + length value.now) }
    ensures capacity { vec_capacity bytes.old ≤ vec_capacity bytes.new }
{
    let key = keep(bytes, key)?;
    let value = keep(bytes, value)?;
    Ok((key, value))
}

// Puts the bytes of a call behind those that are kept.
fn keep_call(bytes: &mut Vec<u8>, call: &Call) -> Result<KeptCall, AllocError>
    ensures kept { IfOk result (λ kept. KeepsCall bytes.old.items bytes.new.items kept
        (call_data call.now)) }
    ensures err { OnErr result (Extends bytes.old.items bytes.new.items) }
    ensures room { vec_len bytes.old + bytes_of_call (call_data call.now) ≤ vec_capacity bytes.old
        → IsOk result }
    ensures growth { vec_len bytes.new ≤ vec_len bytes.old + bytes_of_call (call_data call.now) }
    ensures capacity { vec_capacity bytes.old ≤ vec_capacity bytes.new }
{
    match *call {
        Call::Get { key } => Ok(KeptCall::Get {
            key: keep(bytes, key)?,
        }),
        Call::Store {
            kind,
            key,
            value,
            flags,
            expiration,
            cas,
        } => {
            let (key, value) = keep_two(bytes, key, value)?;
            Ok(KeptCall::Store {
                kind,
                key,
                value,
                flags,
                expiration,
                cas,
            })
        }
        Call::Join {
            front,
            key,
            value,
            cas,
        } => {
            let (key, value) = keep_two(bytes, key, value)?;
            Ok(KeptCall::Join {
                front,
                key,
                value,
                cas,
            })
        }
        Call::Count {
            down,
            key,
            delta,
            initial,
            expiration,
            cas,
        } => Ok(KeptCall::Count {
            down,
            key: keep(bytes, key)?,
            delta,
            initial,
            expiration,
            cas,
        }),
        Call::Delete { key, cas } => Ok(KeptCall::Delete {
            key: keep(bytes, key)?,
            cas,
        }),
        Call::Touch {
            key,
            expiration,
            fetch,
        } => Ok(KeptCall::Touch {
            key: keep(bytes, key)?,
            expiration,
            fetch,
        }),
        Call::Observe { uuid } => Ok(KeptCall::Observe { uuid }),
        Call::Failovers => Ok(KeptCall::Failovers),
        Call::SetState { state } => Ok(KeptCall::SetState { state }),
        Call::GetState => Ok(KeptCall::GetState),
    }
}

// Puts the bytes of a call and of its answer's value behind those that are kept.
fn keep_called(
    bytes: &mut Vec<u8>,
    call: &Call,
    value: &[u8],
) -> Result<(KeptCall, Span), AllocError>
    ensures extends { Extends bytes.old.items bytes.new.items }
    ensures inside { IfOk result (λ kept. IsCallInside (length bytes.new.items) kept.0
        × IsInside (length bytes.new.items) kept.1) }
    ensures call { IfOk result (λ kept. call_in bytes.new.items kept.0 ≡ call_data call.now) }
    ensures value { IfOk result (λ kept. spanned bytes.new.items kept.1 ≡ value.now) }
    ensures room { vec_len bytes.old + (bytes_of_call (call_data call.now) + length value.now)
        ≤ vec_capacity bytes.old → IsOk result }
    ensures growth { vec_len bytes.new ≤ vec_len bytes.old
        + (bytes_of_call (call_data call.now) + length value.now) }
    ensures capacity { vec_capacity bytes.old ≤ vec_capacity bytes.new }
{
    let call = keep_call(bytes, call)?;
    let value = keep(bytes, value)?;
    Ok((call, value))
}

// Puts the bytes of an event behind those that are kept. It can't fail where they fit.
fn keep_event(bytes: &mut Vec<u8>, event: &Event) -> Result<KeptEvent, AllocError>
    ensures extends { Extends bytes.old.items bytes.new.items }
    ensures inside { IfOk result (λ kept. IsEventInside (length bytes.new.items) kept) }
    ensures same { IfOk result (λ kept. event_in bytes.new.items kept ≡ event_data event.now) }
    ensures room { vec_len bytes.old + bytes_of (event_data event.now) ≤ vec_capacity bytes.old
        → IsOk result }
    ensures growth { vec_len bytes.new ≤ vec_len bytes.old + bytes_of (event_data event.now) }
    ensures capacity { vec_capacity bytes.old ≤ vec_capacity bytes.new }
{
    match *event {
        Event::Called {
            caller,
            call,
            now,
            reply,
            value,
        } => {
            let (call, value) = keep_called(bytes, &call, value)?;
            Ok(KeptEvent::Called {
                caller,
                call,
                now,
                reply,
                value,
            })
        }
        Event::Refused {
            caller,
            call,
            now,
            cause,
        } => Ok(KeptEvent::Refused {
            caller,
            call: keep_call(bytes, &call)?,
            now,
            cause,
        }),
        Event::Expired { key, now } => Ok(KeptEvent::Expired {
            key: keep(bytes, key)?,
            now,
        }),
        Event::Persisted { number } => Ok(KeptEvent::Persisted { number }),
        Event::Marked { stripe, number } => Ok(KeptEvent::Marked { stripe, number }),
        Event::Asked {
            ticket,
            caller,
            call,
        } => Ok(KeptEvent::Asked {
            ticket,
            caller,
            call: keep_call(bytes, &call)?,
        }),
        Event::ReadFailed { ticket, fault } => Ok(KeptEvent::ReadFailed { ticket, fault }),
        Event::Opened => Ok(KeptEvent::Opened),
    }
}

fn lend(bytes: &[u8], span: Span) -> &[u8]
    requires { IsInside (length bytes.now) span }
    ensures { result.now ≡ spanned bytes.now span }
{
    &bytes[span.from..span.from + span.len]
}

// A call as it was, out of the log that its bytes lie in.
fn lend_call(bytes: &[u8], call: KeptCall) -> Call<'_>
    requires { IsCallInside (length bytes.now) call }
    ensures { call_data result ≡ call_in bytes.now call }
{
    match call {
        KeptCall::Get { key } => Call::Get {
            key: lend(bytes, key),
        },
        KeptCall::Store {
            kind,
            key,
            value,
            flags,
            expiration,
            cas,
        } => Call::Store {
            kind,
            key: lend(bytes, key),
            value: lend(bytes, value),
            flags,
            expiration,
            cas,
        },
        KeptCall::Join {
            front,
            key,
            value,
            cas,
        } => Call::Join {
            front,
            key: lend(bytes, key),
            value: lend(bytes, value),
            cas,
        },
        KeptCall::Count {
            down,
            key,
            delta,
            initial,
            expiration,
            cas,
        } => Call::Count {
            down,
            key: lend(bytes, key),
            delta,
            initial,
            expiration,
            cas,
        },
        KeptCall::Delete { key, cas } => Call::Delete {
            key: lend(bytes, key),
            cas,
        },
        KeptCall::Touch {
            key,
            expiration,
            fetch,
        } => Call::Touch {
            key: lend(bytes, key),
            expiration,
            fetch,
        },
        KeptCall::Observe { uuid } => Call::Observe { uuid },
        KeptCall::Failovers => Call::Failovers,
        KeptCall::SetState { state } => Call::SetState { state },
        KeptCall::GetState => Call::GetState,
    }
}

// An event as it was, out of the log that its bytes lie in.
fn lend_kept(bytes: &[u8], event: KeptEvent) -> Event<'_>
    requires { IsEventInside (length bytes.now) event }
    ensures { event_data result ≡ event_in bytes.now event }
{
    match event {
        KeptEvent::Called {
            caller,
            call,
            now,
            reply,
            value,
        } => Event::Called {
            caller,
            call: lend_call(bytes, call),
            now,
            reply,
            value: lend(bytes, value),
        },
        KeptEvent::Refused {
            caller,
            call,
            now,
            cause,
        } => Event::Refused {
            caller,
            call: lend_call(bytes, call),
            now,
            cause,
        },
        KeptEvent::Expired { key, now } => Event::Expired {
            key: lend(bytes, key),
            now,
        },
        KeptEvent::Persisted { number } => Event::Persisted { number },
        KeptEvent::Marked { stripe, number } => Event::Marked { stripe, number },
        KeptEvent::Asked {
            ticket,
            caller,
            call,
        } => Event::Asked {
            ticket,
            caller,
            call: lend_call(bytes, call),
        },
        KeptEvent::ReadFailed { ticket, fault } => Event::ReadFailed { ticket, fault },
        KeptEvent::Opened => Event::Opened,
    }
}

// Notes an event of a vBucket. At an error nothing was noted. It never fails where there is room for one event and
// its bytes.
pub fn note(log: &mut EventLog, vb: u16, event: &Event) -> Result<(), NoMemory>
    requires whole { HasAllBytes log.old }
    ensures whole { HasAllBytes log.new }
    ensures ok { OnOk result (pairs_of log.new ≡ pairs_of log.old ++ (vb, event_data event.now)
        ∷ []) }
    ensures err { OnErr result (pairs_of log.new ≡ pairs_of log.old) }
    ensures room { 1 ≤ event_room log.old → bytes_of (event_data event.now) ≤ byte_room log.old
        → IsOk result }
    ensures events { event_room log.old ≤ event_room log.new + 1 }
    ensures bytes { byte_room log.old ≤ byte_room log.new + bytes_of (event_data event.now) }
{
    let kept = keep_event(&mut log.bytes, event)?;
    log.events.push((vb, kept))?;
    Ok(())
}

// Takes room for so many more events and bytes.
pub fn reserve(log: &mut EventLog, events: usize, bytes: usize) -> Result<(), NoMemory>
    ensures whole { HasAllBytes log.old → HasAllBytes log.new }
    ensures pairs { pairs_of log.new ≡ pairs_of log.old }
    ensures ok { OnOk result ((events ≤ event_room log.new) × (bytes ≤ byte_room log.new)) }
    ensures err { OnErr result ((event_room log.old < events) ⊎ (byte_room log.old < bytes)) }
    ensures events { event_room log.old ≤ event_room log.new }
    ensures bytes { byte_room log.old ≤ byte_room log.new }
{
    log.events.reserve(events)?;
    log.bytes.reserve(bytes)?;
    Ok(())
}

// One event, counted from 0, with its vBucket.
pub fn lend_event(log: &EventLog, index: usize) -> (u16, Event<'_>)
    requires whole { HasAllBytes log.now }
    requires index { index < length (pairs_of log.now) }
    ensures { slice_get (pairs_of log.now) index ≡ Some (result.0, event_data result.1) }
{
    let (vb, event) = log.events[index];
    (vb, lend_kept(&log.bytes, event))
}
