// Gets that are served, wait and are refused, with their answers written out.
use super::held::{Held, open_parts};
use super::ticket;
use crate::Step;
use ep_model::{Call, Cause, Eviction, Meta, Reply, StoreKind, Ticket, VbState};
use fetch_book::Outcome;
use std::alloc::Global;

const SECOND: u64 = 1_000_000_000;

const FLAGS: u32 = 0xdead_beef;

/// The bytes of a value that fills most of a stripe.
const LARGE: [u8; 1792] = [7; 1792];

/// The answer to a Get of the document that was the first mutation, or the one with this number.
fn shown(cas: u64) -> Step {
    Step::Done(Reply {
        status: 0x00,
        cas,
        flags: FLAGS,
        uuid: 0,
        seqno: 0,
    })
}

fn done(status: u16) -> Step {
    Step::Done(Reply::refusal(status))
}

/// A Set of the key `k` in the first second, and whether it was done.
fn set(held: &mut Held, value: &[u8; 1], expiration: u32) -> bool {
    let call = Call::Store {
        kind: StoreKind::Set,
        key: b"k",
        value,
        flags: FLAGS,
        expiration,
        cas: 0,
    };
    let Step::Done(reply) = held.write(&call, 0, None) else {
        return false;
    };
    reply.status == 0x00
}

/// A Get of the key `k` in the first second.
fn get(held: &mut Held, prior: Option<Ticket>) -> Step {
    held.get(b"k", 0, prior)
}

/// A document is served while it is live, to an active vBucket alone.
fn serves(alloc: Global) -> bool {
    let Some(mut held) = open_parts(alloc, Eviction::Value, 16, 16) else {
        return false;
    };
    let missing = get(&mut held, None) == done(0x01);
    let is_set = set(&mut held, b"v", 2);
    let live = held.get(b"k", SECOND, None) == shown(1) && held.value.bytes() == b"v".as_slice();
    let expired = held.get(b"k", 2 * SECOND, None) == done(0x01) && held.value.bytes().is_empty();
    held.part.table.set_state(VbState::Replica);
    let refused = held.get(b"k", SECOND, None) == done(0x07) && held.value.bytes().is_empty();
    missing && is_set && live && expired && refused && held.part.book.used() == 0
}

#[test]
fn get_shows_what_is_live_in_an_active_vbucket(rt: HostRuntime) {
    assert!(rt; serves(rt.alloc()));
}

/// A Set of another key, whose document takes fifteen blocks.
fn fill(held: &mut Held) -> bool {
    let call = Call::Store {
        kind: StoreKind::Set,
        key: b"a",
        value: &LARGE,
        flags: 0,
        expiration: 0,
        cas: 0,
    };
    let Step::Done(reply) = held.write(&call, 0, None) else {
        return false;
    };
    reply.status == 0x00
}

/// A document without room is refused until others can be ejected for it.
fn waits_for_room(alloc: Global) -> bool {
    let Some(mut held) = open_parts(alloc, Eviction::Full, 16, 16) else {
        return false;
    };
    let is_full = fill(&mut held);
    let first = get(&mut held, None) == Step::Fetch(ticket(1));
    let no_room = Outcome::NoRoom { blocks: 2 };
    let settled = held.part.book.settle(ticket(1), no_room);
    let refused = get(&mut held, Some(ticket(1))) == Step::Refused(Cause::Quota);
    let is_free = held.part.book.used() == 0;
    let second = get(&mut held, None) == Step::Fetch(ticket(2));
    let settled = settled && held.part.book.settle(ticket(2), no_room);
    held.mark(1);
    let anew = get(&mut held, Some(ticket(2))) == Step::Fetch(ticket(3));
    is_full
        && first
        && settled
        && refused
        && is_free
        && second
        && anew
        && held.part.book.used() == 1
}

#[test]
fn document_without_room_is_asked_for_anew_once_there_is(rt: HostRuntime) {
    assert!(rt; waits_for_room(rt.alloc()));
}

/// Sixty-four calls may wait. One whose place is settled gives it up before it asks anew.
fn waits_at_a_place(alloc: Global) -> bool {
    let Some(mut held) = open_parts(alloc, Eviction::Full, 16, 16) else {
        return false;
    };
    for number in 1..65u64 {
        if get(&mut held, None) != Step::Fetch(ticket(number)) {
            return false;
        }
    }
    let full = get(&mut held, None) == Step::FetchFull && held.part.book.used() == 64;
    let waits = get(&mut held, Some(ticket(1))) == Step::Fetch(ticket(1));
    let settled = held.part.book.settle(ticket(1), Outcome::Merged);
    let anew = get(&mut held, Some(ticket(1))) == Step::Fetch(ticket(65));
    full && waits && settled && anew && held.part.book.used() == 64
}

#[test]
fn merged_place_is_given_up_before_the_call_asks_anew(rt: HostRuntime) {
    assert!(rt; waits_at_a_place(rt.alloc()));
}

/// Puts the document with this number and this value back, as the store has it.
fn put_back(held: &mut Held, number: u64, value: &[u8; 1]) -> bool {
    let meta = Meta {
        flags: FLAGS,
        expiry: 0,
        cas: number,
        seqno: number,
        deleted: false,
        len: 1,
    };
    held.restore(b"k", meta, value) == Some(true)
}

/// A document that was ejected is waited for, and served once it was put back, or from memory where another call put it.
fn comes_back(alloc: Global, eviction: Eviction) -> bool {
    let Some(mut held) = open_parts(alloc, eviction, 16, 16) else {
        return false;
    };
    let is_set = set(&mut held, b"v", 0);
    held.mark(1);
    let ejected = held.eject(b"k");
    let waits = get(&mut held, None) == Step::Fetch(ticket(1));
    let merged = put_back(&mut held, 1, b"v") && held.part.book.settle(ticket(1), Outcome::Merged);
    let served = get(&mut held, Some(ticket(1))) == shown(1)
        && held.value.bytes() == b"v".as_slice();
    let is_free = held.part.book.used() == 0;
    let ejected = ejected && held.eject(b"k");
    let waits = waits && get(&mut held, None) == Step::Fetch(ticket(2));
    let is_set = is_set && set(&mut held, b"w", 0);
    let forgotten = held.part.book.used() == 0;
    let changed = get(&mut held, Some(ticket(2))) == shown(2)
        && held.value.bytes() == b"w".as_slice();
    is_set && ejected && waits && merged && served && is_free && forgotten && changed
}

#[test]
fn ejected_document_comes_back_or_was_put_anew(rt: HostRuntime) {
    assert!(rt; comes_back(rt.alloc(), Eviction::Full));
    assert!(rt; comes_back(rt.alloc(), Eviction::Value));
}
