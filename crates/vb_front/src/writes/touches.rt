// Touch and Get-and-touch.
ghost use Rattle.std.specs.Prelude.{◌≡◌, ◌==◌, ◌+◌, ◌≤◌, [], length, if◌then◌else◌};
ghost use Rattle.ep_model.specs.Limits.{IsKey, IsMoment, max_value};
ghost use Rattle.ep_model.specs.Stripes.{stripe_of};
ghost use Rattle.ep_model.specs.Answer.{answer_touch, shows};
ghost use Rattle.hash_stripe.specs.Nodes.{node_at};
ghost use Rattle.hash_stripe.specs.Stripes.{resident_value};
ghost use Rattle.vb_front.specs.declared.step.Step.TheVariants as steps;
ghost use Rattle.vb_front.specs.Waits.{release};
ghost use Rattle.vb_front.specs.Writes.{shown_world, shown_doc, text_at, IsTextOf, HasText, step_of, value_if, write_answer, Wrote};

use super::puts::{Draft, put, step_of};
use crate::get::answer;
use crate::part::StripePart;
use crate::step::Step;
use ckpt_manager::Queue;
use ep_model::status::{KEY_NOT_FOUND, SUCCESS};
use ep_model::{Meta, Out, Reply, Ticket, rules};

/// The flags that a call shows: those of the document where its value is fetched.
fn flags_shown(flags: u32, fetch: bool) -> u32
    ensures { result ≡ if fetch then flags else 0 }
{
    if fetch { flags } else { 0 }
}

/// Whether a document has this expiry already.
fn expires_so(live: Meta, expiry: u32) -> bool
    ensures { result ≡ (expiry == live.expiry) }
{
    expiry == live.expiry
}

/// The document stays, and is shown where its value is fetched.
fn show(
    part: &mut StripePart,
    prior: Option<Ticket>,
    key: &[u8],
    live: Meta,
    fetch: bool,
    value: &mut Out,
) -> Step
    requires there { IsTextOf live (resident_value (node_at part.old.table.slots key.now)) }
    requires room { max_value ≤ value.old.spare }
    requires empty { value.old.bytes ≡ [] }
    ensures step { result ≡ steps.Done (shows live.cas (if fetch then live.flags else 0) []).reply }
    ensures part { part.new ≡ record part.old { book = release part.old.book prior } }
    ensures value { value.new.bytes ≡ if fetch then text_at part.old.table key.now else [] }
    ensures room { value.new.spare + length value.new.bytes ≡ value.old.spare
        + length value.old.bytes }
{
    let flags = flags_shown(live.flags, fetch);
    if fetch {
        part.table.value_to(key, value);
    }
    let reply = Reply {
        status: SUCCESS,
        cas: live.cas,
        flags,
        uuid: 0,
        seqno: 0,
    };
    answer(part, prior, reply)
}

/// What a call came to that shows the value in the buffer where it is fetched and the document was put.
fn finish(placed: Option<Reply>, fetch: bool, value: &mut Out) -> Step
    ensures step { result ≡ step_of placed }
    ensures value { value.new.bytes ≡ value_if placed (if fetch then value.old.bytes else []) }
    ensures room { value.new.spare + length value.new.bytes ≡ value.old.spare
        + length value.old.bytes }
{
    if !fetch || placed.is_none() {
        value.cut(0);
    }
    step_of(placed)
}

/// Touch and Get-and-touch of the live document of these metadata: an effect only where the stored expiry differs.
pub(crate) fn touch(
    part: &mut StripePart,
    queue: &mut Queue,
    prior: Option<Ticket>,
    key: &[u8],
    expiration: u32,
    fetch: bool,
    now: u64,
    live: Option<Meta>,
    value: &mut Out,
) -> Step
    requires key { IsKey key.now }
    requires home { stripe_of key.now part.old.table.stripes ≡ part.old.table.index }
    requires moment { IsMoment now }
    requires there { HasText live (node_at part.old.table.slots key.now) }
    requires room { max_value ≤ value.old.spare }
    requires empty { value.old.bytes ≡ [] }
    ensures comes { Wrote part.old queue.old (write_answer part.old queue.old prior (answer_touch
        fetch (shown_world part.old.table queue.old) key.now expiration now (shown_doc
        (text_at part.old.table key.now) live))) result part.new queue.new }
    ensures value { value.new.bytes ≡ (write_answer part.old queue.old prior (answer_touch fetch
        (shown_world part.old.table queue.old) key.now expiration now
        (shown_doc (text_at part.old.table key.now) live))).value }
    ensures short { length value.new.bytes ≤ max_value }
    ensures room { value.new.spare + length value.new.bytes ≡ value.old.spare
        + length value.old.bytes }
{
    let Some(live) = live else {
        return answer(part, prior, Reply::refusal(KEY_NOT_FOUND));
    };
    let expiry = rules::stored_expiry(expiration, now);
    if expires_so(live, expiry) {
        return show(part, prior, key, live, fetch, value);
    }
    if let Some(status) = rules::number_refusal(queue.high()) {
        return answer(part, prior, Reply::refusal(status));
    }
    part.table.value_to(key, value);
    let draft = Draft {
        flags: live.flags,
        expiry,
        deleted: false,
    };
    let flags = flags_shown(live.flags, fetch);
    let placed = put(part, queue, prior, key, draft, value.bytes(), flags, now);
    finish(placed, fetch, value)
}
