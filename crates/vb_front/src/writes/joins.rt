// Append and Prepend.
ghost use Rattle.std.specs.Prelude.{◌≡◌, ◌+◌, ◌≤◌, [], length, true};
ghost use Rattle.std.specs.Option.{is_some};
ghost use Rattle.ep_model.specs.Limits.{IsKey, IsMoment, IsValue, max_value};
ghost use Rattle.ep_model.specs.Stripes.{stripe_of};
ghost use Rattle.ep_model.specs.Answer.{answer_join, joined};
ghost use Rattle.hash_stripe.specs.Nodes.{node_at};
ghost use Rattle.hash_stripe.specs.Stripes.{resident_value};
ghost use Rattle.vb_front.specs.Writes.{shown_world, shown_doc, text_at, HasText, write_answer, Wrote};

use super::puts::{Draft, fit, put, step_of};
use crate::get::answer;
use crate::part::StripePart;
use crate::step::Step;
use ckpt_manager::Queue;
use ep_model::status::NOT_STORED;
use ep_model::{Meta, Out, Reply, Ticket, rules};
use hash_stripe::Stripe;

/// Appends to a buffer the value of a resident document with a piece in front of it or behind it.
fn joined_to(table: &Stripe, key: &[u8], front: bool, piece: &[u8], value: &mut Out)
    requires resident { is_some (resident_value (node_at table.now.slots key.now)) ≡ true }
    requires room { length (text_at table.now key.now) + length piece.now ≤ value.old.spare }
    requires empty { value.old.bytes ≡ [] }
    ensures bytes { value.new.bytes ≡ joined front (text_at table.now key.now) piece.now }
    ensures room { value.new.spare + length value.new.bytes ≡ value.old.spare
        + length value.old.bytes }
{
    if front {
        value.push(piece);
        table.value_to(key, value);
    } else {
        table.value_to(key, value);
        value.push(piece);
    }
}

/// Append and Prepend to the live document of these metadata. The joined value is made in the buffer.
pub(crate) fn join(
    part: &mut StripePart,
    queue: &mut Queue,
    prior: Option<Ticket>,
    front: bool,
    key: &[u8],
    piece: &[u8],
    cas: u64,
    now: u64,
    live: Option<Meta>,
    value: &mut Out,
) -> Step
    requires key { IsKey key.now }
    requires home { stripe_of key.now part.old.table.stripes ≡ part.old.table.index }
    requires piece { IsValue piece.now }
    requires moment { IsMoment now }
    requires there { HasText live (node_at part.old.table.slots key.now) }
    requires room { max_value ≤ value.old.spare }
    requires empty { value.old.bytes ≡ [] }
    ensures comes { Wrote part.old queue.old (write_answer part.old queue.old prior (answer_join
        front (shown_world part.old.table queue.old) key.now piece.now cas now (shown_doc
        (text_at part.old.table key.now) live))) result part.new queue.new }
    ensures value { value.new.bytes ≡ (write_answer part.old queue.old prior (answer_join front
        (shown_world part.old.table queue.old) key.now piece.now cas now
        (shown_doc (text_at part.old.table key.now) live))).value }
    ensures empty { value.new.bytes ≡ [] }
    ensures room { value.new.spare + length value.new.bytes ≡ value.old.spare
        + length value.old.bytes }
{
    let Some(live) = live else {
        return answer(part, prior, Reply::refusal(NOT_STORED));
    };
    let len = live.len as usize + piece.len();
    let refused = rules::cas_refusal(cas, Some(live.cas))
        .or(rules::join_refusal(fit(&part.table, queue), key.len(), len))
        .or(rules::number_refusal(queue.high()));
    if let Some(status) = refused {
        return answer(part, prior, Reply::refusal(status));
    }
    joined_to(&part.table, key, front, piece, value);
    let draft = Draft {
        flags: live.flags,
        expiry: live.expiry,
        deleted: false,
    };
    let placed = put(part, queue, prior, key, draft, value.bytes(), 0, now);
    value.cut(0);
    step_of(placed)
}
