// A call that may put a document, on the stripe of its key and the queue.
mod counts;
mod joins;
mod puts;
mod stores;
mod touches;

ghost use Rattle.std.specs.Prelude.{◌≡◌, ◌+◌, ◌≤◌, ◌&&◌, ℕ, List, [], length, true, Some};
ghost use Rattle.ep_model.specs.Calls.{written_key};
ghost use Rattle.ep_model.specs.Needs.{needs};
ghost use Rattle.ep_model.specs.Limits.{IsKey, IsMoment, IsWithin, max_value};
ghost use Rattle.ep_model.specs.Stripes.{stripe_of};
ghost use Rattle.ep_model.specs.History.{call_data};
ghost use Rattle.ep_model.specs.World.{live_of};
ghost use Rattle.ep_model.specs.Answer.{cas_of};
ghost use Rattle.hash_stripe.specs.Nodes.{Slot, node_at};
ghost use Rattle.hash_stripe.specs.Stripes.{found};
ghost use Rattle.vb_front.specs.Waits.{waited};
ghost use Rattle.vb_front.specs.Priors.{key_in};
ghost use Rattle.vb_front.specs.Writes.{seen_meta, shown_doc, text_at, is_away, HasText};
ghost use Rattle.vb_front.specs.Writes.{write_over, write_waits, write_found, write_step};
ghost use Rattle.vb_front.specs.Reads.{KeepsStripe};
ghost use Rattle.vb_front.specs.WriteSteps.{WriteIsExact};
ghost use Rattle.vb_front.specs.Writes.{Wrote, Leaves, WriteIsLegal, AnsweredHasRoom};

use crate::get::{answer, refuse};
use crate::part::StripePart;
use crate::step::Step;
use crate::wait::{self, Meaning};
use ckpt_manager::Queue;
use ep_model::{Call, Cause, Eviction, Meta, Out, Reply, Ticket, rules};
use hash_stripe::{Found, Stripe};

/// The key that a call may write.
fn key_of<'a>(call: &Call<'a>) -> &'a [u8]
    requires { written_key (call_data call.now) ≡ Some (key_in (call_data call.now)) }
    ensures { result.now ≡ key_in (call_data call.now) }
{
    match *call {
        Call::Store { key, .. }
        | Call::Join { key, .. }
        | Call::Count { key, .. }
        | Call::Delete { key, .. }
        | Call::Touch { key, .. } => key,
        Call::Get { .. }
        | Call::Observe { .. }
        | Call::Failovers
        | Call::SetState { .. }
        | Call::GetState => unreachable!(),
    }
}

/// Whether memory lacks the value of a document, or under full eviction may lack a document.
fn is_away(eviction: Eviction, found: Found) -> bool
    ensures { result ≡ is_away eviction found }
{
    match found {
        Found::Ejected(_) => true,
        Found::Resident(_) => false,
        Found::Nothing => match eviction {
            Eviction::Value => false,
            Eviction::Full => true,
        },
    }
}

/// Whether a call needs what memory lacks.
fn lacks(eviction: Eviction, call: &Call, found: Found) -> bool
    ensures { result ≡ (needs eviction (call_data call.now) && is_away eviction found) }
{
    rules::needs(eviction, call) && is_away(eviction, found)
}

/// The metadata that memory has of a document.
fn seen(found: Found) -> Option<Meta>
    ensures { result ≡ seen_meta found }
{
    match found {
        Found::Nothing => None,
        Found::Ejected(meta) | Found::Resident(meta) => Some(meta),
    }
}

/// The metadata of a document that is live.
fn live(seen: Option<Meta>, now: u64) -> Option<Meta>
    ensures doc { (text : List ℕ) → shown_doc text result ≡ live_of (shown_doc text seen) now }
    ensures there { (slot : Slot) → HasText seen slot → HasText result slot }
{
    match seen {
        Some(meta) if rules::is_live(meta.deleted, meta.expiry, now) => Some(meta),
        _ => None,
    }
}

/// The CAS of a document.
fn cas_of(live: Option<Meta>) -> Option<u64>
    ensures { (text : List ℕ) → result ≡ cas_of (shown_doc text live) }
{
    match live {
        None => None,
        Some(meta) => Some(meta.cas),
    }
}

/// A call that is answered over the document of these metadata, which may be expired. Its value, where the call needs that,
/// is in memory.
fn write_over(
    part: &mut StripePart,
    queue: &mut Queue,
    call: &Call,
    seen: Option<Meta>,
    now: u64,
    prior: Option<Ticket>,
    value: &mut Out,
) -> Step
    requires keyed { written_key (call_data call.now) ≡ Some (key_in (call_data call.now)) }
    requires within { IsWithin (call_data call.now) }
    requires home { stripe_of (key_in (call_data call.now)) part.old.table.stripes
        ≡ part.old.table.index }
    requires moment { IsMoment now }
    requires there { needs part.old.table.eviction (call_data call.now) ≡ true →
        HasText seen (node_at part.old.table.slots (key_in (call_data call.now))) }
    requires room { max_value ≤ value.old.spare }
    requires empty { value.old.bytes ≡ [] }
    ensures comes { Wrote part.old queue.old (write_over part.old queue.old prior
        (call_data call.now) now (shown_doc (text_at part.old.table (key_in (call_data call.now)))
        seen)) result part.new queue.new }
    ensures value { value.new.bytes ≡ (write_over part.old queue.old prior (call_data call.now) now
        (shown_doc (text_at part.old.table (key_in (call_data call.now))) seen)).value }
    ensures short { length value.new.bytes ≤ max_value }
    ensures room { value.new.spare + length value.new.bytes ≡ value.old.spare
        + length value.old.bytes }
{
    let live = live(seen, now);
    match *call {
        Call::Store {
            kind,
            key,
            value: text,
            flags,
            expiration,
            cas,
        } => stores::store(
            part,
            queue,
            prior,
            kind,
            key,
            text,
            flags,
            expiration,
            cas,
            now,
            cas_of(live),
        ),
        Call::Join {
            front,
            key,
            value: piece,
            cas,
        } => joins::join(part, queue, prior, front, key, piece, cas, now, live, value),
        Call::Count {
            down,
            key,
            delta,
            initial,
            expiration,
            cas,
        } => counts::count(
            part, queue, prior, down, key, delta, initial, expiration, cas, now, live, value,
        ),
        Call::Delete { key, cas } => stores::delete(
            part,
            queue,
            prior,
            key,
            cas,
            now,
            cas_of(live),
        ),
        Call::Touch {
            key,
            expiration,
            fetch,
        } => touches::touch(part, queue, prior, key, expiration, fetch, now, live, value),
        Call::Get { .. }
        | Call::Observe { .. }
        | Call::Failovers
        | Call::SetState { .. }
        | Call::GetState => unreachable!(),
    }
}

/// A call that needs what isn't in memory.
fn write_away(
    part: &mut StripePart,
    queue: &mut Queue,
    call: &Call,
    key: &[u8],
    now: u64,
    prior: Option<Ticket>,
    value: &mut Out,
) -> Step
    requires keyed { written_key (call_data call.now) ≡ Some (key_in (call_data call.now)) }
    requires key { key.now ≡ key_in (call_data call.now) }
    requires within { IsWithin (call_data call.now) }
    requires home { stripe_of (key_in (call_data call.now)) part.old.table.stripes
        ≡ part.old.table.index }
    requires moment { IsMoment now }
    requires room { max_value ≤ value.old.spare }
    requires empty { value.old.bytes ≡ [] }
    ensures comes { Wrote part.old queue.old (write_waits part.old queue.old prior
        (call_data call.now) key.now now (waited part.old.table part.old.book key.now prior)) result
        part.new queue.new }
    ensures value { value.new.bytes ≡ (write_waits part.old queue.old prior (call_data call.now)
        key.now now (waited part.old.table part.old.book key.now prior)).value }
    ensures short { length value.new.bytes ≤ max_value }
    ensures room { value.new.spare + length value.new.bytes ≡ value.old.spare
        + length value.old.bytes }
{
    match wait::prior_means(&part.table, &part.book, key, prior) {
        Meaning::Waits(ticket) => Step::Fetch(ticket),
        Meaning::Asks => wait::ask(&mut part.book, key, prior),
        Meaning::Absent => write_over(part, queue, call, None, now, prior, value),
        Meaning::Refused(Cause::Quota) => match rules::own_refusal(
            puts::fit(&part.table, queue),
            call,
        ) {
            None => refuse(part, prior, Cause::Quota),
            Some(status) => answer(part, prior, Reply::refusal(status)),
        },
        Meaning::Refused(cause) => refuse(part, prior, cause),
    }
}

/// A call on an active vBucket that has opened.
fn write_key(
    part: &mut StripePart,
    queue: &mut Queue,
    call: &Call,
    now: u64,
    prior: Option<Ticket>,
    value: &mut Out,
) -> Step
    requires keyed { written_key (call_data call.now) ≡ Some (key_in (call_data call.now)) }
    requires within { IsWithin (call_data call.now) }
    requires home { stripe_of (key_in (call_data call.now)) part.old.table.stripes
        ≡ part.old.table.index }
    requires moment { IsMoment now }
    requires room { max_value ≤ value.old.spare }
    requires empty { value.old.bytes ≡ [] }
    ensures comes { Wrote part.old queue.old (write_found part.old queue.old prior
        (call_data call.now) (key_in (call_data call.now)) now (found (node_at part.old.table.slots
        (key_in (call_data call.now))))) result part.new queue.new }
    ensures value { value.new.bytes ≡ (write_found part.old queue.old prior (call_data call.now)
        (key_in (call_data call.now)) now (found (node_at part.old.table.slots
        (key_in (call_data call.now))))).value }
    ensures short { length value.new.bytes ≤ max_value }
    ensures room { value.new.spare + length value.new.bytes ≡ value.old.spare
        + length value.old.bytes }
{
    let key = key_of(call);
    let found = part.table.find(key);
    if lacks(part.table.eviction(), call, found) {
        return write_away(part, queue, call, key, now, prior, value);
    }
    write_over(part, queue, call, seen(found), now, prior, value)
}

/// Does a call that may put a document on the stripe of its key and the queue. `prior` is the ticket at which this call has
/// asked before, if it has. The value of the answer goes into `value`, which is emptied first. An old value that goes on, or is
/// read as a number, is copied into it once, and a new number's text is made apart. Its cost is linear in the number of the
/// stripe's slots, once more for each document that is ejected, in its places, in the items of the open checkpoint and those
/// that go, and in the values.
pub fn write(
    part: &mut StripePart,
    queue: &mut Queue,
    call: &Call,
    now: u64,
    prior: Option<Ticket>,
    value: &mut Out,
) -> Step
    requires keyed { written_key (call_data call.now) ≡ Some (key_in (call_data call.now)) }
    requires within { IsWithin (call_data call.now) }
    requires home { stripe_of (key_in (call_data call.now)) part.old.table.stripes
        ≡ part.old.table.index }
    requires moment { IsMoment now }
    requires room { max_value ≤ value.old.spare + length value.old.bytes }
    ensures step { result ≡ (write_step part.old queue.old prior (call_data call.now)
        (key_in (call_data call.now)) now).step }
    ensures value { value.new.bytes ≡ (write_step part.old queue.old prior (call_data call.now)
        (key_in (call_data call.now)) now).value }
    ensures left { Leaves part.old queue.old (write_step part.old queue.old prior
        (call_data call.now) (key_in (call_data call.now)) now) part.new queue.new }
    ensures short { length value.new.bytes ≤ max_value }
    ensures room { value.new.spare + length value.new.bytes ≡ value.old.spare
        + length value.old.bytes }
    ensures keeps { KeepsStripe part.old part.new }
    ensures legal { WriteIsLegal part.old queue.old (call_data call.now)
        (key_in (call_data call.now)) now prior (write_step part.old queue.old prior
        (call_data call.now) (key_in (call_data call.now)) now) part.new queue.new }
    ensures exact { WriteIsExact part.old queue.old (call_data call.now)
        (key_in (call_data call.now)) now prior (write_step part.old queue.old prior
        (call_data call.now) (key_in (call_data call.now)) now) }
    ensures fits { AnsweredHasRoom part.old queue.old (call_data call.now)
        (key_in (call_data call.now)) now prior (write_step part.old queue.old prior
        (call_data call.now) (key_in (call_data call.now)) now) }
{
    // what is so of every stripe is known here by this call
    let _free = part.table.free();
    value.cut(0);
    if !part.table.is_opened() {
        return refuse(part, prior, Cause::Warming);
    }
    if let Some(status) = rules::state_refusal(part.table.state(), true) {
        return answer(part, prior, Reply::refusal(status));
    }
    write_key(part, queue, call, now, prior, value)
}
