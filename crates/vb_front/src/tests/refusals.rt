// Writes that are refused for good, with their statuses written out.
ghost use Rattle.std.specs.Prelude.{◌≤◌};

use super::held::{Held, open_parts};
use super::{config, ticket};
use crate::{Step, StripePart};
use ckpt_manager::Queue;
use ep_model::{Call, Cause, Eviction, Out, Reply, StoreKind, Ticket, VbState};
use failover_table::Failovers;
use fetch_book::{Book, Outcome};
use hash_stripe::Stripe;
use std::alloc::Global;

/// The last sequence number.
const LAST: u64 = 281_474_976_710_655;

/// The bytes of all values but numbers.
const BYTES: [u8; 2048] = [7; 2048];

/// The status that answers a call for good, and one that isn't a status where it isn't answered so.
fn status(step: Step) -> u16 {
    match step {
        Step::Done(reply) => reply.status,
        Step::Refused(_) | Step::Fetch(_) | Step::FetchFull => 0xffff,
    }
}

/// A Set of so many bytes under the key `k`.
fn set(held: &mut Held, len: usize, cas: u64, prior: Option<Ticket>) -> Step
    requires { len ≤ 2048 }
{
    let call = Call::Store {
        kind: StoreKind::Set,
        key: b"k",
        value: &BYTES[..len],
        flags: 0,
        expiration: 0,
        cas,
    };
    held.write(&call, 0, prior)
}

/// A Set of the number 1 under this key, which has one byte.
fn set_number(held: &mut Held, key: &[u8; 1]) -> Step {
    let call = Call::Store {
        kind: StoreKind::Set,
        key,
        value: b"1",
        flags: 0,
        expiration: 0,
        cas: 0,
    };
    held.write(&call, 0, None)
}

/// An Append of so many bytes to the key `k`.
fn append(held: &mut Held, len: usize, cas: u64, prior: Option<Ticket>) -> Step
    requires { len ≤ 2048 }
{
    let call = Call::Join {
        front: false,
        key: b"k",
        value: &BYTES[..len],
        cas,
    };
    held.write(&call, 0, prior)
}

/// An Increment of this key, which has one byte.
fn count(held: &mut Held, key: &[u8; 1]) -> Step {
    let call = Call::Count {
        down: false,
        key,
        delta: 1,
        initial: 1,
        expiration: 0,
        cas: 0,
    };
    held.write(&call, 0, None)
}

/// A Delete of this key, which has one byte.
fn delete(held: &mut Held, key: &[u8; 1]) -> Step {
    held.write(&Call::Delete { key, cas: 0 }, 0, None)
}

/// A Touch of the key `k`.
fn touch(held: &mut Held, expiration: u32) -> Step {
    let call = Call::Touch {
        key: b"k",
        expiration,
        fetch: false,
    };
    held.write(&call, 0, None)
}

/// The statuses of writes of a key, and of another one.
fn statuses(held: &mut Held) -> [u16; 9] {
    [
        status(set_number(held, b"k")),
        status(append(held, 1, 0, None)),
        status(count(held, b"k")),
        status(delete(held, b"k")),
        status(touch(held, 5)),
        status(touch(held, 0)),
        status(set(held, 2048, 0, None)),
        status(count(held, b"n")),
        status(delete(held, b"n")),
    ]
}

/// Parts of a vBucket with one number left for a mutation.
fn nearly_numbered(alloc: Global) -> Option<Held> {
    let config = config(Eviction::Value, 16, 16);
    if config.fault().is_some() {
        return None;
    }
    let (Ok(table), Ok(book)) = (Stripe::new(alloc, 0, &config), Book::new(alloc, 0)) else {
        return None;
    };
    let (Ok(mut queue), Ok(value)) = (Queue::new(alloc, &config), Out::new(alloc, 1_048_576)) else {
        return None;
    };
    queue.start(LAST - 1, 1, &Failovers::new());
    queue.set_opened();
    let mut part = StripePart { table, book };
    part.table.set_opened();
    Some(Held { part, queue, value })
}

/// A write of a key that would take a number is refused behind the last one. What else refuses it for good, and its want of an
/// effect, come first.
fn numbers_end(alloc: Global) -> bool {
    let Some(mut held) = nearly_numbered(alloc) else {
        return false;
    };
    let last = Reply {
        status: 0x00,
        cas: 2,
        flags: 0,
        uuid: 0,
        seqno: LAST,
    };
    let is_last = set_number(&mut held, b"k") == Step::Done(last);
    let statuses = statuses(&mut held);
    let shown = status(held.get(b"k", 0, None));
    is_last
        && statuses == [0x22, 0x22, 0x22, 0x22, 0x22, 0x00, 0x03, 0x22, 0x01]
        && shown == 0x00
        && held.value.bytes() == b"1".as_slice()
        && held.queue.high() == LAST
}

#[test]
fn write_without_a_number_is_out_of_range(rt: HostRuntime) {
    assert!(rt; numbers_end(rt.alloc()));
}

/// A vBucket that isn't active refuses each write before anything else, and frees the place of one that waited.
fn is_elsewhere(alloc: Global, state: VbState) -> bool {
    let Some(mut held) = open_parts(alloc, Eviction::Full, 16, 16) else {
        return false;
    };
    let asks = append(&mut held, 1, 0, None) == Step::Fetch(ticket(1));
    held.part.table.set_state(state);
    let refused = status(append(&mut held, 1, 0, Some(ticket(1)))) == 0x07;
    let is_free = held.part.book.used() == 0;
    let statuses = statuses(&mut held);
    asks && refused && is_free && statuses == [0x07; 9] && held.queue.high() == 0
}

#[test]
fn write_of_an_inactive_vbucket_is_not_for_it(rt: HostRuntime) {
    assert!(rt; is_elsewhere(rt.alloc(), VbState::Replica));
    assert!(rt; is_elsewhere(rt.alloc(), VbState::Dead));
}

/// A joined document has to fit an empty stripe and an empty queue. A missing document and another CAS come first.
fn grows(alloc: Global) -> bool {
    let Some(mut held) = open_parts(alloc, Eviction::Value, 16, 16) else {
        return false;
    };
    let missing = status(append(&mut held, 2048, 0, None));
    let is_set = status(set(&mut held, 1664, 0, None));
    let large = status(append(&mut held, 257, 0, None));
    let other = status(append(&mut held, 257, 9, None));
    let fits = status(append(&mut held, 256, 0, None));
    let more = status(append(&mut held, 1, 0, None));
    let none = status(append(&mut held, 0, 0, None));
    [missing, is_set, large, other, fits, more, none] == [0x05, 0x00, 0x03, 0x02, 0x00, 0x03, 0x00]
        && held.queue.high() == 3
}

#[test]
fn append_is_refused_where_the_joined_value_is_too_large(rt: HostRuntime) {
    assert!(rt; grows(rt.alloc()));
}

/// A Set by its CAS waits for the old document, for which there is no room. It is refused for good where its own is too
/// large, and else until there is room.
fn needs_room_for_the_old(alloc: Global, len: usize, refused: Step) -> bool
    requires { len ≤ 2048 }
{
    let Some(mut held) = open_parts(alloc, Eviction::Full, 16, 16) else {
        return false;
    };
    let call = Call::Store {
        kind: StoreKind::Set,
        key: b"a",
        value: &BYTES[..1792],
        flags: 0,
        expiration: 0,
        cas: 0,
    };
    let is_full = status(held.write(&call, 0, None)) == 0x00;
    let asks = set(&mut held, len, 9, None) == Step::Fetch(ticket(1));
    let settled = held
        .part
        .book
        .settle(ticket(1), Outcome::NoRoom { blocks: 2 });
    let is_refused = set(&mut held, len, 9, Some(ticket(1))) == refused;
    let is_free = held.part.book.used() == 0;
    is_full && asks && settled && is_refused && is_free && held.queue.high() == 1
}

#[test]
fn set_that_is_too_large_wants_no_room_for_the_old(rt: HostRuntime) {
    let large = Step::Done(Reply::refusal(0x03));
    assert!(rt; needs_room_for_the_old(rt.alloc(), 1921, large));
    assert!(rt; needs_room_for_the_old(rt.alloc(), 1920, Step::Refused(Cause::Quota)));
}
