// Increment and Decrement.
ghost use Rattle.std.specs.Prelude.{◌≡◌, ◌+◌, ◌≤◌, [], length, true};
ghost use Rattle.std.specs.Int.{w64, to_be_bytes};
ghost use Rattle.std.specs.Option.{is_some};
ghost use Rattle.ep_model.specs.Limits.{IsKey, IsMoment, max_value};
ghost use Rattle.ep_model.specs.Stripes.{stripe_of};
ghost use Rattle.ep_model.specs.Decimal.{number_of};
ghost use Rattle.ep_model.specs.Answer.{answer_count, counts};
ghost use Rattle.hash_stripe.specs.Nodes.{node_at};
ghost use Rattle.hash_stripe.specs.Stripes.{resident_value};
ghost use Rattle.vb_front.specs.Writes.{shown_world, shown_doc, text_at, HasText, write_answer, Wrote};

use super::puts::{Draft, put, step_of};
use crate::get::answer;
use crate::part::StripePart;
use crate::step::Step;
use ckpt_manager::Queue;
use ep_model::status::BAD_DELTA;
use ep_model::{Meta, Out, Reply, Ticket, decimal, rules};
use hash_stripe::Stripe;
use itoa::Buffer;

/// The number of a resident document's value, if it has one. The buffer is empty before and behind.
fn number_at(table: &Stripe, key: &[u8], value: &mut Out) -> Option<u64>
    requires resident { is_some (resident_value (node_at table.now.slots key.now)) ≡ true }
    requires room { length (text_at table.now key.now) ≤ value.old.spare }
    requires empty { value.old.bytes ≡ [] }
    ensures number { result ≡ number_of (text_at table.now key.now) }
    ensures empty { value.new.bytes ≡ [] }
    ensures room { value.new.spare + length value.new.bytes ≡ value.old.spare
        + length value.old.bytes }
{
    table.value_to(key, value);
    let number = decimal::number_of(value.bytes());
    value.cut(0);
    number
}

/// Puts a number's text, and shows the number.
fn put_number(
    part: &mut StripePart,
    queue: &mut Queue,
    prior: Option<Ticket>,
    key: &[u8],
    number: u64,
    flags: u32,
    expiry: u32,
    now: u64,
    value: &mut Out,
) -> Step
    requires key { IsKey key.now }
    requires home { stripe_of key.now part.old.table.stripes ≡ part.old.table.index }
    requires moment { IsMoment now }
    requires room { max_value ≤ value.old.spare }
    requires empty { value.old.bytes ≡ [] }
    ensures comes { Wrote part.old queue.old (write_answer part.old queue.old prior (counts
        (shown_world part.old.table queue.old) key.now number flags expiry now)) result part.new
        queue.new }
    ensures value { value.new.bytes ≡ (write_answer part.old queue.old prior
        (counts (shown_world part.old.table queue.old) key.now number flags expiry now)).value }
    ensures short { length value.new.bytes ≤ max_value }
    ensures room { value.new.spare + length value.new.bytes ≡ value.old.spare
        + length value.old.bytes }
{
    if let Some(status) = rules::number_refusal(queue.high()) {
        return answer(part, prior, Reply::refusal(status));
    }
    let draft = Draft {
        flags,
        expiry,
        deleted: false,
    };
    let mut digits = Buffer::new();
    let text = digits.format(number).as_bytes();
    let placed = put(part, queue, prior, key, draft, text, 0, now);
    if placed.is_some() {
        value.push(&number.to_be_bytes());
    }
    step_of(placed)
}

/// Increment and Decrement of the live document of these metadata, or where there is none of the initial value.
pub(crate) fn count(
    part: &mut StripePart,
    queue: &mut Queue,
    prior: Option<Ticket>,
    down: bool,
    key: &[u8],
    delta: u64,
    initial: u64,
    expiration: u32,
    cas: u64,
    now: u64,
    live: Option<Meta>,
    value: &mut Out,
) -> Step
    requires key { IsKey key.now }
    requires home { stripe_of key.now part.old.table.stripes ≡ part.old.table.index }
    requires moment { IsMoment now }
    requires there { HasText live (node_at part.old.table.slots key.now) }
    requires room { max_value ≤ value.old.spare }
    requires empty { value.old.bytes ≡ [] }
    ensures comes { Wrote part.old queue.old (write_answer part.old queue.old prior (answer_count
        down (shown_world part.old.table queue.old) key.now delta initial expiration cas now
        (shown_doc (text_at part.old.table key.now) live))) result part.new queue.new }
    ensures value { value.new.bytes ≡ (write_answer part.old queue.old prior (answer_count down
        (shown_world part.old.table queue.old) key.now delta initial expiration cas now
        (shown_doc (text_at part.old.table key.now) live))).value }
    ensures short { length value.new.bytes ≤ max_value }
    ensures room { value.new.spare + length value.new.bytes ≡ value.old.spare
        + length value.old.bytes }
{
    let Some(live) = live else {
        if let Some(status) = rules::new_count_refusal(cas, expiration) {
            return answer(part, prior, Reply::refusal(status));
        }
        let expiry = rules::stored_expiry(expiration, now);
        return put_number(part, queue, prior, key, initial, 0, expiry, now, value);
    };
    if let Some(status) = rules::cas_refusal(cas, Some(live.cas)) {
        return answer(part, prior, Reply::refusal(status));
    }
    let Some(number) = number_at(&part.table, key, value) else {
        return answer(part, prior, Reply::refusal(BAD_DELTA));
    };
    let number = rules::counted(down, number, delta);
    put_number(
        part,
        queue,
        prior,
        key,
        number,
        live.flags,
        live.expiry,
        now,
        value,
    )
}
