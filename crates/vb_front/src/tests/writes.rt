// Calls that put documents, with their answers written out.
ghost use Rattle.std.specs.Prelude.{◌≡◌, ◌+◌, ◌≤◌, length};
ghost use Rattle.ep_model.specs.Limits.{IsKey, max_value};

use super::{config, ticket};
use crate::{Step, StripePart, read, write};
use ckpt_manager::Queue;
use ep_model::{Call, Cause, Eviction, Out, Reply, StoreKind, Ticket};
use fetch_book::{Book, Outcome};
use hash_stripe::Stripe;
use std::test::Fail;

/// The bytes of all values.
const BYTES: [u8; 2048] = [7; 2048];

/// The status that answers a call, and one that isn't a status where it waits.
fn status(step: Step) -> u16 {
    match step {
        Step::Done(reply) => reply.status,
        Step::Refused(cause) => cause.status(),
        Step::Fetch(_) | Step::FetchFull => 0xffff,
    }
}

/// A Set of so many bytes on the only stripe of a vBucket.
fn set(part: &mut StripePart, queue: &mut Queue, key: &[u8], len: usize, value: &mut Out) -> Step
    requires only { part.old.table.stripes ≡ 1 }
    requires first { part.old.table.index ≡ 0 }
    requires key { IsKey key.now }
    requires len { len ≤ 2048 }
    requires room { max_value ≤ value.old.spare + length value.old.bytes }
    ensures only { part.new.table.stripes ≡ 1 }
    ensures first { part.new.table.index ≡ 0 }
    ensures room { value.new.spare + length value.new.bytes ≡ value.old.spare
        + length value.old.bytes }
{
    let call = Call::Store {
        kind: StoreKind::Set,
        key,
        value: &BYTES[..len],
        flags: 0,
        expiration: 0,
        cas: 0,
    };
    write(part, queue, &call, 0, None, value)
}

/// A document has to fit the stripe beside what can't be ejected.
fn answers_of_a_small_stripe(part: &mut StripePart, queue: &mut Queue, value: &mut Out) -> bool
    requires only { part.old.table.stripes ≡ 1 }
    requires first { part.old.table.index ≡ 0 }
    requires room { max_value ≤ value.old.spare + length value.old.bytes }
    ensures room { value.new.spare + length value.new.bytes ≡ value.old.spare
        + length value.old.bytes }
{
    let first = status(set(part, queue, b"a", 1664, value));
    let crowded = set(part, queue, b"b", 256, value);
    let again = status(set(part, queue, b"a", 1792, value));
    let large = set(part, queue, b"c", 1921, value);
    let empty = status(set(part, queue, b"c", 0, value));
    first == 0x00
        && crowded == Step::Refused(Cause::Quota)
        && again == 0x00
        && large == Step::Done(Reply::refusal(0x03))
        && empty == 0x00
}

/// A document has to fit the queue beside what isn't stored.
fn answers_of_a_small_queue(part: &mut StripePart, queue: &mut Queue, value: &mut Out) -> bool
    requires only { part.old.table.stripes ≡ 1 }
    requires first { part.old.table.index ≡ 0 }
    requires room { max_value ≤ value.old.spare + length value.old.bytes }
{
    let first = status(set(part, queue, b"a", 1792, value));
    let crowded = set(part, queue, b"b", 256, value);
    let read = status(read(part, &Call::Get { key: b"a" }, 0, None, value));
    first == 0x00
        && crowded == Step::Refused(Cause::Quota)
        && read == 0x00
        && value.bytes() == &BYTES[..1792]
}

#[test]
fn documents_are_put_where_they_fit(rt: HostRuntime) -> Result<(), Fail> {
    let mut value = Out::new(rt.alloc(), 1_048_576)?;
    let stripe = config(Eviction::Value, 16, 64);
    assert_eq!(rt; stripe.fault(), None);
    let mut part = StripePart {
        table: Stripe::new(rt.alloc(), 0, &stripe)?,
        book: Book::new(rt.alloc(), 0)?,
    };
    let mut queue = Queue::new(rt.alloc(), &stripe)?;
    part.table.set_opened();
    let right = answers_of_a_small_stripe(&mut part, &mut queue, &mut value);
    assert!(rt; right);
    let short = config(Eviction::Value, 64, 16);
    assert_eq!(rt; short.fault(), None);
    let mut part = StripePart {
        table: Stripe::new(rt.alloc(), 0, &short)?,
        book: Book::new(rt.alloc(), 0)?,
    };
    let mut queue = Queue::new(rt.alloc(), &short)?;
    part.table.set_opened();
    let right = answers_of_a_small_queue(&mut part, &mut queue, &mut value);
    assert!(rt; right);
    Ok(())
}

/// An Increment by 5 from 10, which makes the number where there is none.
fn count(part: &mut StripePart, queue: &mut Queue, prior: Option<Ticket>, value: &mut Out) -> Step
    requires only { part.old.table.stripes ≡ 1 }
    requires first { part.old.table.index ≡ 0 }
    requires room { max_value ≤ value.old.spare + length value.old.bytes }
    ensures only { part.new.table.stripes ≡ 1 }
    ensures first { part.new.table.index ≡ 0 }
    ensures room { value.new.spare + length value.new.bytes ≡ value.old.spare
        + length value.old.bytes }
{
    let call = Call::Count {
        down: false,
        key: b"k",
        delta: 5,
        initial: 10,
        expiration: 0,
        cas: 0,
    };
    write(part, queue, &call, 0, prior, value)
}

/// Under full eviction a counter waits for the store, which has none; then it is in memory.
fn counter_waits(part: &mut StripePart, queue: &mut Queue, value: &mut Out) -> bool
    requires only { part.old.table.stripes ≡ 1 }
    requires first { part.old.table.index ≡ 0 }
    requires room { max_value ≤ value.old.spare + length value.old.bytes }
{
    let waits = count(part, queue, None, value) == Step::Fetch(ticket(1));
    let settled = part.book.settle(ticket(1), Outcome::Absent);
    let made = count(part, queue, Some(ticket(1)), value);
    let shown = value.bytes() == [0, 0, 0, 0, 0, 0, 0, 10].as_slice();
    let made = made
        == Step::Done(Reply {
            status: 0x00,
            cas: 1,
            flags: 0,
            uuid: 0,
            seqno: 1,
        });
    let more = status(count(part, queue, None, value)) == 0x00;
    let counted = value.bytes() == [0, 0, 0, 0, 0, 0, 0, 15].as_slice();
    waits
        && settled
        && made
        && shown
        && more
        && counted
        && part.book.used() == 0
        && queue.high() == 2
}

#[test]
fn counter_is_made_once_the_store_has_none(rt: HostRuntime) -> Result<(), Fail> {
    let mut value = Out::new(rt.alloc(), 1_048_576)?;
    let config = config(Eviction::Full, 16, 16);
    assert_eq!(rt; config.fault(), None);
    let mut part = StripePart {
        table: Stripe::new(rt.alloc(), 0, &config)?,
        book: Book::new(rt.alloc(), 0)?,
    };
    let mut queue = Queue::new(rt.alloc(), &config)?;
    part.table.set_opened();
    let right = counter_waits(&mut part, &mut queue, &mut value);
    assert!(rt; right);
    Ok(())
}
