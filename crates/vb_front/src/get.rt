// A Get on the stripe of its key.
ghost use Rattle.std.specs.Prelude.{◌≡◌, ◌+◌, ◌≤◌, [], length, Some};
ghost use Rattle.ep_model.specs.declared.data.CallData.TheVariants.{Get};
ghost use Rattle.ep_model.specs.Calls.{key_of};
ghost use Rattle.ep_model.specs.Limits.{IsKey, max_value};
ghost use Rattle.ep_model.specs.Stripes.{stripe_of};
ghost use Rattle.ep_model.specs.History.{call_data};
ghost use Rattle.hash_stripe.specs.declared.found.Found.TheVariants.{Resident};
ghost use Rattle.hash_stripe.specs.Nodes.{node_at};
ghost use Rattle.hash_stripe.specs.Stripes.{found, resident_value, text_of};
ghost use Rattle.vb_front.specs.declared.step.Step.TheVariants as steps;
ghost use Rattle.vb_front.specs.Waits.{waited, release, memory_of};
ghost use Rattle.vb_front.specs.Priors.{key_in};
ghost use Rattle.vb_front.specs.Reads.{KeepsStripe, read_waits, read_memory, read_step, ReadIsLegal};
ghost use Rattle.vb_front.specs.Reads.{ReadIsExact, AnsweredGetHasRoom};

use crate::part::StripePart;
use crate::step::Step;
use crate::wait::{self, Meaning};
use ep_model::status::{KEY_NOT_FOUND, SUCCESS};
use ep_model::{Call, Cause, Eviction, Meta, Out, Reply, Ticket, rules};
use hash_stripe::Found;

/// The call is answered, and its place is free.
pub(crate) fn answer(part: &mut StripePart, prior: Option<Ticket>, reply: Reply) -> Step
    ensures step { result ≡ steps.Done reply }
    ensures part { part.new ≡ record part.old { book = release part.old.book prior } }
{
    wait::release(&mut part.book, prior);
    Step::Done(reply)
}

/// The call is refused, and its place is free.
pub(crate) fn refuse(part: &mut StripePart, prior: Option<Ticket>, cause: Cause) -> Step
    ensures step { result ≡ steps.Refused cause }
    ensures part { part.new ≡ record part.old { book = release part.old.book prior } }
{
    wait::release(&mut part.book, prior);
    Step::Refused(cause)
}

/// A Get of what isn't in memory.
fn read_away(part: &mut StripePart, key: &[u8], prior: Option<Ticket>) -> Step
    requires { IsKey key.now }
    ensures step { result ≡ (read_waits part.old prior key.now
        (waited part.old.table part.old.book key.now prior)).step }
    ensures part { part.new ≡ (read_waits part.old prior key.now
        (waited part.old.table part.old.book key.now prior)).part }
    ensures value { [] ≡ (read_waits part.old prior key.now
        (waited part.old.table part.old.book key.now prior)).value }
{
    match wait::prior_means(&part.table, &part.book, key, prior) {
        Meaning::Waits(ticket) => Step::Fetch(ticket),
        Meaning::Asks => wait::ask(&mut part.book, key, prior),
        Meaning::Absent => answer(part, prior, Reply::refusal(KEY_NOT_FOUND)),
        Meaning::Refused(cause) => refuse(part, prior, cause),
    }
}

/// A Get of a document that is in memory, and is noted as used.
fn read_here(
    part: &mut StripePart,
    key: &[u8],
    meta: Meta,
    now: u64,
    prior: Option<Ticket>,
    value: &mut Out,
) -> Step
    requires there { Resident meta ≡ found (node_at part.old.table.slots key.now) }
    requires room { length (text_of (resident_value (node_at part.old.table.slots key.now)))
        ≤ value.old.spare }
    requires short { length (text_of (resident_value (node_at part.old.table.slots key.now)))
        ≤ max_value }
    requires empty { value.old.bytes ≡ [] }
    ensures step { result ≡ (read_memory part.old prior key.now now
        (memory_of part.old.table key.now)).step }
    ensures part { part.new ≡ (read_memory part.old prior key.now now
        (memory_of part.old.table key.now)).part }
    ensures value { value.new.bytes
        ≡ (read_memory part.old prior key.now now (memory_of part.old.table key.now)).value }
    ensures short { length value.new.bytes ≤ max_value }
    ensures room { value.new.spare + length value.new.bytes ≡ value.old.spare
        + length value.old.bytes }
{
    let is_live = rules::is_live(meta.deleted, meta.expiry, now);
    if is_live {
        part.table.value_to(key, value);
    }
    part.table.heat(key);
    if !is_live {
        return answer(part, prior, Reply::refusal(KEY_NOT_FOUND));
    }
    let reply = Reply {
        status: SUCCESS,
        cas: meta.cas,
        flags: meta.flags,
        uuid: 0,
        seqno: 0,
    };
    answer(part, prior, reply)
}

/// A Get on an active vBucket that has opened.
fn read_key(
    part: &mut StripePart,
    key: &[u8],
    now: u64,
    prior: Option<Ticket>,
    value: &mut Out,
) -> Step
    requires key { IsKey key.now }
    requires room { max_value ≤ value.old.spare }
    requires empty { value.old.bytes ≡ [] }
    ensures step { result ≡ (read_memory part.old prior key.now now
        (memory_of part.old.table key.now)).step }
    ensures part { part.new ≡ (read_memory part.old prior key.now now
        (memory_of part.old.table key.now)).part }
    ensures value { value.new.bytes
        ≡ (read_memory part.old prior key.now now (memory_of part.old.table key.now)).value }
    ensures short { length value.new.bytes ≤ max_value }
    ensures room { value.new.spare + length value.new.bytes ≡ value.old.spare
        + length value.old.bytes }
{
    match part.table.find(key) {
        Found::Resident(meta) => read_here(part, key, meta, now, prior, value),
        Found::Ejected(_) => read_away(part, key, prior),
        Found::Nothing => match part.table.eviction() {
            Eviction::Value => answer(part, prior, Reply::refusal(KEY_NOT_FOUND)),
            Eviction::Full => read_away(part, key, prior),
        },
    }
}

/// A Get of a key.
fn read_served(
    part: &mut StripePart,
    key: &[u8],
    now: u64,
    prior: Option<Ticket>,
    value: &mut Out,
) -> Step
    requires key { IsKey key.now }
    requires room { max_value ≤ value.old.spare }
    requires empty { value.old.bytes ≡ [] }
    ensures step { result ≡ (read_step part.old prior key.now now).step }
    ensures part { part.new ≡ (read_step part.old prior key.now now).part }
    ensures value { value.new.bytes ≡ (read_step part.old prior key.now now).value }
    ensures short { length value.new.bytes ≤ max_value }
    ensures room { value.new.spare + length value.new.bytes ≡ value.old.spare
        + length value.old.bytes }
{
    if !part.table.is_opened() {
        return refuse(part, prior, Cause::Warming);
    }
    if let Some(status) = rules::state_refusal(part.table.state(), true) {
        return answer(part, prior, Reply::refusal(status));
    }
    read_key(part, key, now, prior, value)
}

/// Does a Get on the stripe of its key. `prior` is the ticket at which this call has asked before, if it has. The value of the
/// answer goes into `value`, which is emptied first. Its cost is linear in the number of the stripe's slots, in its places and
/// in the value.
pub fn read(
    part: &mut StripePart,
    call: &Call,
    now: u64,
    prior: Option<Ticket>,
    value: &mut Out,
) -> Step
    requires get { call_data call.now ≡ Get (key_in (call_data call.now)) }
    requires key { IsKey (key_in (call_data call.now)) }
    requires home { stripe_of (key_in (call_data call.now)) part.old.table.stripes
        ≡ part.old.table.index }
    requires room { max_value ≤ value.old.spare + length value.old.bytes }
    ensures step { result ≡ (read_step part.old prior (key_in (call_data call.now)) now).step }
    ensures part { part.new ≡ (read_step part.old prior (key_in (call_data call.now)) now).part }
    ensures value { value.new.bytes ≡ (read_step part.old prior (key_in (call_data call.now))
        now).value }
    ensures short { length value.new.bytes ≤ max_value }
    ensures room { value.new.spare + length value.new.bytes ≡ value.old.spare
        + length value.old.bytes }
    ensures keeps { KeepsStripe part.old part.new }
    ensures exact { ReadIsExact part.old (key_in (call_data call.now)) prior
        (read_step part.old prior (key_in (call_data call.now)) now) }
    ensures legal { ReadIsLegal part.old (key_in (call_data call.now)) now prior
        (read_step part.old prior (key_in (call_data call.now)) now) }
    ensures fits { AnsweredGetHasRoom part.old (key_in (call_data call.now)) now prior
        (read_step part.old prior (key_in (call_data call.now)) now) }
{
    let Call::Get { key } = *call else {
        unreachable!()
    };
    // what is so of every stripe is known here by this call
    let _free = part.table.free();
    value.cut(0);
    read_served(part, key, now, prior, value)
}
