// Calls whose place is gone, or whose read came to nothing, with their answers written out.
ghost use Rattle.ep_model.specs.Limits.{IsValue};

use super::held::{Held, open_parts};
use super::ticket;
use crate::Step;
use ep_model::status::{OUT_OF_MEMORY, SUCCESS, TEMPORARY_FAILURE};
use ep_model::{Call, Cause, Eviction, Meta, Reply, StoreKind, Ticket};
use fetch_book::Outcome;
use std::alloc::Global;

/// The bytes of a value that fills most of a stripe.
const LARGE: [u8; 1664] = [7; 1664];

/// Whether a Set of the key `k` is done.
fn sets(held: &mut Held, value: &[u8]) -> bool
    requires { IsValue value.now }
{
    let call = Call::Store {
        kind: StoreKind::Set,
        key: b"k",
        value,
        flags: 0,
        expiration: 0,
        cas: 0,
    };
    let Step::Done(reply) = held.write(&call, 0, None) else {
        return false;
    };
    reply.status == SUCCESS
}

/// A Get of the key `k`, or an Append of `w` to it.
fn tries(held: &mut Held, appends: bool, prior: Option<Ticket>) -> Step {
    if !appends {
        return held.get(b"k", 0, prior);
    }
    let call = Call::Join {
        front: false,
        key: b"k",
        value: b"w",
        cas: 0,
    };
    held.write(&call, 0, prior)
}

/// Whether a Get of the key shows this value of the mutation with this number, and has no place.
fn shows(held: &mut Held, prior: Option<Ticket>, number: u64, value: &[u8]) -> bool {
    let reply = Reply {
        status: SUCCESS,
        cas: number,
        flags: 0,
        uuid: 0,
        seqno: 0,
    };
    let is_shown = tries(held, false, prior) == Step::Done(reply);
    is_shown && held.value.bytes() == value && held.part.book.used() == 0
}

/// All mutations are stored, and the document is ejected.
fn goes_away(held: &mut Held) -> bool {
    let high = held.queue.high();
    held.mark(high);
    held.eject(b"k")
}

/// The document is put back as the store has it, for the call with this ticket.
fn comes_back(held: &mut Held, ticket: Ticket, number: u64, value: &[u8]) -> bool
    requires { IsValue value.now }
{
    let meta = Meta {
        flags: 0,
        expiry: 0,
        cas: number,
        seqno: number,
        deleted: false,
        len: value.len() as u32,
    };
    let is_back = held.restore(b"k", meta, value) == Some(true);
    let is_told = held.part.book.settle(ticket, Outcome::Merged);
    is_back && is_told
}

/// A Get waits while another caller puts the document, which is stored and ejected. What the store was read for before comes
/// to no place any more, and the Get asks anew.
fn asks_anew(held: &mut Held, number: u64) -> bool {
    let asks = tries(held, false, None) == Step::Fetch(ticket(1));
    let is_put = sets(held, &LARGE);
    let is_gone = held.part.book.used() == 0;
    let is_away = goes_away(held);
    let is_late = !held.part.book.settle(ticket(1), Outcome::Absent);
    let anew = tries(held, false, Some(ticket(1))) == Step::Fetch(ticket(2));
    let is_back = comes_back(held, ticket(2), number, &LARGE);
    let shown = shows(held, Some(ticket(2)), number, &LARGE);
    asks && is_put && is_gone && is_away && is_late && anew && is_back && shown
}

/// Parts whose only document, `v` under the key `k`, is stored and ejected.
fn away(alloc: Global, eviction: Eviction) -> Option<Held> {
    let mut held = open_parts(alloc, eviction, 16, 64)?;
    if sets(&mut held, b"v") && goes_away(&mut held) {
        Some(held)
    } else {
        None
    }
}

/// The same of a document that the store had before.
fn asks_anew_for_a_changed(alloc: Global, eviction: Eviction) -> bool {
    let Some(mut held) = away(alloc, eviction) else {
        return false;
    };
    asks_anew(&mut held, 2)
}

/// The same of a document that the store did not have.
fn asks_anew_for_a_new(alloc: Global) -> bool {
    let Some(mut held) = open_parts(alloc, Eviction::Full, 16, 64) else {
        return false;
    };
    asks_anew(&mut held, 1)
}

#[test]
fn late_outcome_is_of_no_place_and_the_get_asks_anew(rt: HostRuntime) {
    assert!(rt; asks_anew_for_a_changed(rt.alloc(), Eviction::Value));
    assert!(rt; asks_anew_for_a_changed(rt.alloc(), Eviction::Full));
    assert!(rt; asks_anew_for_a_new(rt.alloc()));
}

/// A read that comes to nothing is answered once with this cause, and changes nothing. The next try asks anew, and the
/// document is put back.
fn is_refused_once(held: &mut Held, appends: bool, outcome: Outcome, cause: Cause) -> bool {
    let asks = tries(held, appends, None) == Step::Fetch(ticket(1));
    let settled = held.part.book.settle(ticket(1), outcome);
    let refused = tries(held, appends, Some(ticket(1))) == Step::Refused(cause);
    let is_free = held.part.book.used() == 0;
    let is_same = held.queue.high() == 1;
    let anew = tries(held, appends, None) == Step::Fetch(ticket(2));
    let is_back = comes_back(held, ticket(2), 1, b"v");
    asks && settled && refused && is_free && is_same && anew && is_back
}

/// A Get whose read came to nothing.
fn gets_later(alloc: Global, eviction: Eviction, outcome: Outcome, cause: Cause) -> bool {
    let Some(mut held) = away(alloc, eviction) else {
        return false;
    };
    let refused = is_refused_once(&mut held, false, outcome, cause);
    refused && shows(&mut held, Some(ticket(2)), 1, b"v")
}

/// An Append whose read came to nothing.
fn appends_later(alloc: Global, eviction: Eviction, outcome: Outcome, cause: Cause) -> bool {
    let Some(mut held) = away(alloc, eviction) else {
        return false;
    };
    let refused = is_refused_once(&mut held, true, outcome, cause);
    let reply = Reply {
        status: SUCCESS,
        cas: 2,
        flags: 0,
        uuid: 0,
        seqno: 2,
    };
    let appended = tries(&mut held, true, Some(ticket(2))) == Step::Done(reply);
    refused && appended && shows(&mut held, None, 2, b"vw")
}

#[test]
fn failed_read_is_a_temporary_failure_once(rt: HostRuntime) {
    let failed = Outcome::Failed(1);
    let cause = Cause::Store(ticket(1));
    assert!(rt; cause.status() == TEMPORARY_FAILURE);
    assert!(rt; gets_later(rt.alloc(), Eviction::Value, failed, cause));
    assert!(rt; gets_later(rt.alloc(), Eviction::Full, failed, cause));
    assert!(rt; appends_later(rt.alloc(), Eviction::Value, failed, cause));
    assert!(rt; appends_later(rt.alloc(), Eviction::Full, failed, cause));
}

#[test]
fn want_of_memory_at_a_read_is_told_once(rt: HostRuntime) {
    let cause = Cause::Memory(ticket(1));
    assert!(rt; cause.status() == OUT_OF_MEMORY);
    assert!(rt; gets_later(rt.alloc(), Eviction::Full, Outcome::NoMemory, cause));
    assert!(rt; appends_later(rt.alloc(), Eviction::Value, Outcome::NoMemory, cause));
}
